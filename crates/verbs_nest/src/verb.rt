//! The verb `nest`.
ghost use Rattle.std.specs.Prelude.{◌≡◌, [], IfOk};
ghost use Rattle.verbs_nest.specs.Nest.{nest};

use crate::across_fields::AcrossFields;
use crate::across_records::AcrossRecords;
use crate::implode::{ImplodedRows, implode_verb};
use crate::nest::{Nest, NestForm};
use group_state::OfGroupsOrPass;
use mlr_event::{Ctx, Events};
use mlr_record::Record;
use mlr_spec::NoMemory;
use std::alloc::Global;
use verbs_base::{Each, Stateful};

/// The verb `nest` with what it keeps from record to record.
pub enum NestVerb {
    AcrossRecords(AcrossRecords),
    AcrossFields(Each<AcrossFields>),
    Implode(OfGroupsOrPass<ImplodedRows>),
}

/// The same call on a verb of whatever kind.
macro_rules! of_each {
    ($running:expr, $verb:ident => $call:expr) => {
        match $running {
            NestVerb::AcrossRecords($verb) => $call,
            NestVerb::AcrossFields($verb) => $call,
            NestVerb::Implode($verb) => $call,
        }
    };
}

// Written by hand, so that what stands above calls it instead of dropping the verbs themselves.
impl Drop for NestVerb {
    fn drop(self) {
        of_each!(self, verb => drop(verb))
    }
}

impl NestVerb {
    /// The verb with these options, before the first record. It allocates where it implodes.
    pub fn new(alloc: Global, options: Nest) -> Result<Self, NoMemory>
        ensures meaning { IfOk result (λ made. ⟦<NestVerb as Stateful>⟧.meaning made
            ≡ nest options) }
        ensures represents { IfOk result (λ made. ⟦<NestVerb as Stateful>⟧.represents made []) }
    {
        let Nest {
            field,
            form,
            separator,
            pair_separator,
        } = options;
        match form {
            NestForm::ValuesAcrossRecords => Ok(NestVerb::AcrossRecords(AcrossRecords {
                alloc,
                field,
                separator,
                pair_separator: None,
            })),
            NestForm::PairsAcrossRecords => Ok(NestVerb::AcrossRecords(AcrossRecords {
                alloc,
                field,
                separator,
                pair_separator: Some(pair_separator),
            })),
            NestForm::ValuesAcrossFields => Ok(NestVerb::AcrossFields(Each {
                alloc,
                verb: AcrossFields {
                    field,
                    separator,
                    pair_separator: None,
                },
            })),
            NestForm::PairsAcrossFields => Ok(NestVerb::AcrossFields(Each {
                alloc,
                verb: AcrossFields {
                    field,
                    separator,
                    pair_separator: Some(pair_separator),
                },
            })),
            NestForm::Implode => Ok(NestVerb::Implode(implode_verb(alloc, field, separator)?)),
        }
    }
}

impl Stateful for NestVerb {
    ghost use Rattle.verbs_base.specs.Laws.{never-shuts};
    ghost use Rattle.verbs_nest.specs.declared.verb.NestVerb.TheVariants as v;

    ghost meaning = { elim [
      | v.AcrossRecords s ↦ ⟦<AcrossRecords as Stateful>⟧.meaning s
      | v.AcrossFields s ↦ ⟦<Each<AcrossFields> as Stateful>⟧.meaning s
      | v.Implode s ↦ ⟦<OfGroupsOrPass<ImplodedRows> as Stateful>⟧.meaning s
    ] };

    ghost represents = { elim [
      | v.AcrossRecords s ↦ ⟦<AcrossRecords as Stateful>⟧.represents s
      | v.AcrossFields s ↦ ⟦<Each<AcrossFields> as Stateful>⟧.represents s
      | v.Implode s ↦ ⟦<OfGroupsOrPass<ImplodedRows> as Stateful>⟧.represents s
    ] };

    ghost shuts = { elim [
      | v.AcrossRecords s ↦ never-shuts (⟦<AcrossRecords as Stateful>⟧.meaning s).gives
          (⟦<AcrossRecords as Stateful>⟧.meaning s).late
      | v.AcrossFields s ↦ never-shuts (⟦<Each<AcrossFields> as Stateful>⟧.meaning s).gives
          (⟦<Each<AcrossFields> as Stateful>⟧.meaning s).late
      | v.Implode s ↦ never-shuts (⟦<OfGroupsOrPass<ImplodedRows> as Stateful>⟧.meaning s).gives
          (⟦<OfGroupsOrPass<ImplodedRows> as Stateful>⟧.meaning s).late
    ] };

    fn take(&mut self, fields: Record, ctx: Ctx, out: &mut Events) -> Result<(), NoMemory> {
        of_each!(self, verb => verb.take(fields, ctx, out))
    }

    fn take_all(&mut self, events: &mut Events, out: &mut Events) -> Result<(), NoMemory> {
        of_each!(self, verb => verb.take_all(events, out))
    }

    fn finish(&mut self, ctx: Ctx, out: &mut Events) -> Result<(), NoMemory> {
        of_each!(self, verb => verb.finish(ctx, out))
    }

    fn is_shut(&self) -> bool {
        false
    }

    fn never_shuts(&self) -> bool {
        true
    }
}
