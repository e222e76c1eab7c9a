//! The laws of the events that the first bytes of a file fix, and of the JSON grammar.
ghost use Rattle.std.specs.Prelude.{◌≡◌, ℕ, List, ◌++◌};
ghost use Rattle.mlr_event.specs.declared.event.Ctx.{Ctx};
ghost use Rattle.mlr_event.specs.declared.event.Event.{Event};
ghost use Rattle.mlr_event.specs.declared.names.FileRef.{FileRef};
ghost use Rattle.mlr_event.specs.declared.options.ReadOpts.{ReadOpts};
ghost use Rattle.mlr_event.specs.Reading.{Item};
ghost use Rattle.mlr_spec.specs.JsonTokens.{Token};
ghost use Rattle.read_json_lines.specs.Json.{json_fed, json_read};
ghost use Rattle.read_json_lines.specs.Grammar.{HasItems};
ghost use Rattle.read_json_lines.specs.Records.{Ending, items_of, start_state};

/// The events that the first bytes of a file fix stay the same whatever bytes follow, and the events of every
/// longer file begin with them. It does nothing.
pub fn prefix_laws()
    ensures fed { (opts : ReadOpts) (file : FileRef) (start : Ctx) (bytes rest : List ℕ)
        → (more : List Event)
        × (json_fed opts file start (bytes ++ rest) ≡ json_fed opts file start bytes ++ more) }
    ensures read { (opts : ReadOpts) (file : FileRef) (start : Ctx) (bytes rest : List ℕ)
        → (more : List Event)
        × (json_read opts file start (bytes ++ rest) ≡ json_fed opts file start bytes ++ more) }
{}

/// The items of a stream of tokens are those of the JSON grammar, and the grammar determines them. A stream
/// is a sequence of maps and lists of maps. Each complete map gives a record, in which a repeated key keeps
/// its place and takes the last value. The first fault is at the first token with which the tokens no longer
/// begin JSON values, or begin JSON values but not maps and lists of maps, or which opens level 101 of a map.
/// If there is no such token, the fault may be at the end: at a byte that stops the text, at a word where
/// none is allowed, or where the file breaks off. It does nothing.
pub fn stream_law()
    ensures items { (file : FileRef) (tokens : List (ℕ × Token)) (ending : Ending)
        → HasItems file tokens ending (items_of file start_state tokens ending) }
    ensures only { (file : FileRef) (tokens : List (ℕ × Token)) (ending : Ending)
        (items : List Item)
        → HasItems file tokens ending items → items ≡ items_of file start_state tokens ending }
{}
