//! A law of what standard output gets.
ghost use Rattle.std.specs.Prelude.{◌≡◌, ◌++◌, ℕ, List, true};
ghost use Rattle.mlr_event.specs.declared.event.Event.{Event};
ghost use Rattle.mlr_event.specs.Verb.{is_open};
ghost use Rattle.writers.specs.declared.options.WriteOpts.{WriteOpts};
ghost use Rattle.outlet.specs.Out.{out_of};

/// What standard output gets of a longer list extends what it gets of a shorter one. It does nothing.
pub fn outlet_laws()
    ensures { (opts : WriteOpts) (events following : List Event) → is_open events ≡ true
        → (more : List ℕ) × (out_of opts (events ++ following) ≡ out_of opts events ++ more) }
{
    writers::growth_law();
}
