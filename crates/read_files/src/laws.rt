//! Laws of what inputs give.
ghost use Rattle.std.specs.Prelude.{◌≡◌, ◌<◌, ◌++◌, ℕ, List, None, false, true};
ghost use Rattle.mlr_event.specs.declared.event.Event.{Event};
ghost use Rattle.mlr_event.specs.declared.names.InputName.{InputName};
ghost use Rattle.mlr_event.specs.declared.options.ReadOpts.{ReadOpts};
ghost use Rattle.mlr_event.specs.Verb.{is_list, is_open};
ghost use Rattle.mlr_world.specs.Inputs.{Contents};
ghost use Rattle.mlr_world.specs.Taken.{Take};
ghost use Rattle.read_files.specs.Takes.{ArePrefixesTaken, AreWhole, GoesOn, InOrder, stops_at, taken_by, total};
ghost use Rattle.read_files.specs.Sources.{events_taken, source};

/// What inputs give is a list of events (`list`); it extends as more is taken of them (`grows`), and doesn't
/// change after an end or a fault (`fixed`). All that inputs hold extends what was taken of them (`whole`),
/// which extends what fewer bytes give (`early`); after the last input nothing more is taken (`all`). It does
/// nothing.
pub fn source_laws()
    ensures list { (opts : ReadOpts) (names : List InputName) (given : List Take)
        → is_list (source opts names given) ≡ true }
    ensures grows { (opts : ReadOpts) (names : List InputName) (given longer : List Take)
        → InOrder names given → GoesOn given longer → (more : List Event)
        × (source opts names longer ≡ events_taken opts given ++ more) }
    ensures fixed { (opts : ReadOpts) (names : List InputName) (given longer : List Take)
        → InOrder names given → InOrder names longer → GoesOn given longer
        → is_open (source opts names given) ≡ false
        → source opts names longer ≡ source opts names given }
    ensures whole { (told : Contents) (names : List InputName) (given whole : List Take)
        → InOrder names given → ArePrefixesTaken told given → AreWhole told names whole
        → GoesOn given whole × InOrder names whole }
    ensures early { (told : Contents) (names : List InputName) (given : List Take) (n : ℕ)
        → InOrder names given → ArePrefixesTaken told given → n < total given
        → GoesOn (taken_by told names n) given × InOrder names (taken_by told names n) }
    ensures all { (names : List InputName) (given longer : List Take) → InOrder names given
        → InOrder names longer → GoesOn given longer → stops_at names given ≡ None
        → longer ≡ given }
{
    read_csv::prefix_laws();
    read_dkvp_nidx::prefix_laws();
    read_xtab_pprint::prefix_laws();
    read_json_lines::prefix_laws();
}
