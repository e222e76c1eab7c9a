//! Passes each line of a file to the format's reader.
use crate::rules::{BlockRules, PprintRules, XtabRules};
use mlr_event::{Ctx, Events, FileRef, Format, ReadOpts};
use mlr_lines::{LineFormat, without_return};
use mlr_spec::NoMemory;
use std::alloc::Global;

impl LineFormat for BlockRules {
    ghost use Rattle.mlr_lines.specs.Lines.{fixed_lines, whole_lines};
    ghost use Rattle.read_xtab_pprint.specs.Blocks.{items_fixed, items_whole};
    ghost use Rattle.read_xtab_pprint.specs.Counting.{count-line};
    ghost use Rattle.read_xtab_pprint.specs.Rules.{Begins, after_last, after_line, at_of, count_of, gives_last, gives_line};
    ghost use Rattle.read_xtab_pprint.specs.Usable.{is_usable};

    ghost usable = { is_usable };

    ghost fed = { λ opts file bytes. items_fixed opts file opts.format (fixed_lines bytes) };

    ghost whole = { λ opts file bytes. items_whole opts file opts.format (whole_lines bytes) };

    ghost begins = { Begins };

    ghost after = { after_line };

    ghost gives = { gives_line };

    ghost after_last = { after_last };

    ghost gives_last = { gives_last };

    ghost at = { at_of };

    ghost count = { count_of };

    ghost counts = { count-line };

    fn begin(alloc: Global, opts: ReadOpts, file: FileRef, start: Ctx) -> Self {
        match opts.format {
            Format::Xtab => BlockRules::Xtab(XtabRules {
                alloc,
                opts,
                passed: Events::new(alloc),
                begun: None,
                at: start,
            }),
            _ => BlockRules::Pprint(PprintRules {
                alloc,
                opts,
                file,
                number: 1,
                header: None,
                at: start,
                stopped: false,
            }),
        }
    }

    fn line(&mut self, line: &[u8], out: &mut Events) -> Result<(), NoMemory> {
        let text = without_return(line);
        match self {
            BlockRules::Pprint(rules) => rules.take(text, out),
            BlockRules::Xtab(rules) => rules.take(text, out),
        }
    }

    fn last(&mut self, line: &[u8], out: &mut Events) -> Result<(), NoMemory> {
        match self {
            BlockRules::Pprint(rules) => rules.take_last(line, out),
            BlockRules::Xtab(rules) => rules.take_last(line, out),
        }
    }

    fn ctx(&self) -> Ctx {
        match self {
            BlockRules::Pprint(rules) => rules.at,
            BlockRules::Xtab(rules) => rules.at,
        }
    }

    fn laws() {}
}
