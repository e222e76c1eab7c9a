//! The verb that words give.
ghost use Rattle.std.specs.Prelude.{IfErr, IfOk};
ghost use Rattle.cli_verbs.specs.Faults.{IfRefused};
ghost use Rattle.cli_verbs.specs.Verbs.{IsGoodVerb, IsRefusedVerb, IsVerbOf};

use crate::cat::cat;
use crate::cut::cut;
use crate::decimate::decimate;
use crate::fault::Fault;
use crate::fill_down::fill_down;
use crate::fill_empty::fill_empty;
use crate::flatten::flatten;
use crate::gap::gap;
use crate::grep::grep;
use crate::gsub::gsub;
use crate::having_fields::having_fields;
use crate::head::head;
use crate::json_parse::json_parse;
use crate::json_stringify::json_stringify;
use crate::label::label;
use crate::merge_fields::merge_fields;
use crate::rename::rename;
use crate::reorder::reorder;
use crate::repeat::repeat;
use crate::reshape::reshape;
use crate::sec2gmt::sec2gmt;
use crate::sec2gmtdate::sec2gmtdate;
use crate::seqgen::seqgen;
use crate::sort_within_records::sort_within_records;
use crate::sparsify::sparsify;
use crate::ssub::ssub;
use crate::sub::sub;
use crate::template::template;
use crate::unflatten::unflatten;
use crate::unspace::unspace;
use cli_grammar::{VerbName, VerbWords};
use cli_retain::count::count;
use cli_retain::count_distinct::count_distinct;
use cli_retain::count_similar::count_similar;
use cli_retain::frequent::frequent;
use cli_retain::group_by::group_by;
use cli_retain::sort::sort;
use cli_retain::tail::tail;
use cli_retain::uniq::uniq;
use cli_retain::unsparsify::unsparsify;
use cli_shape::join::join;
use cli_shape::nest::nest;
use cli_stat::stats1::stats1;
use cli_stat::step::step;
use cli_stat::top::top;
use mlr_event::ReadOpts;
use std::alloc::Global;
use verb_specs::VerbSpec;
use verbs_join_nest::Spec as ShapeSpec;
use verbs_retain::Spec as RetainSpec;
use verbs_stat::Spec as StatSpec;
use verbs_stream::Spec;

/// The verb that words give, with its options. Names are flattened with this separator by default, and a left file is read as
/// the main inputs are.
pub fn verb_of(
    alloc: Global,
    flatsep: &[u8],
    read: &ReadOpts,
    given: &VerbWords,
) -> Result<VerbSpec, Fault>
    ensures means { IfOk result (IsVerbOf flatsep.now read.now given.now) }
    ensures good { IfOk result (λ _. IsGoodVerb given.now) }
    ensures refused { IfErr result (IfRefused (IsRefusedVerb given.now)) }
{
    let spec = match given.verb {
        VerbName::Altkv => Spec::Altkv,
        VerbName::Cat => Spec::Cat(cat(alloc, given)?),
        VerbName::Count => return Ok(VerbSpec::Retain(RetainSpec::Count(count(alloc, given)?))),
        VerbName::CountDistinct => return Ok(VerbSpec::Retain(RetainSpec::CountDistinct(
            count_distinct(alloc, given)?,
        ))),
        VerbName::CountSimilar => return Ok(VerbSpec::Retain(RetainSpec::CountSimilar(count_similar(
            alloc, given,
        )?))),
        VerbName::Cut => Spec::Cut(cut(alloc, given)?),
        VerbName::Decimate => Spec::Decimate(decimate(alloc, given)?),
        VerbName::FillDown => Spec::FillDown(fill_down(alloc, given)?),
        VerbName::FillEmpty => Spec::FillEmpty(fill_empty(alloc, given)?),
        VerbName::Flatten => Spec::Flatten(flatten(alloc, flatsep, given)?),
        VerbName::Gap => Spec::Gap(gap(alloc, given)?),
        VerbName::Grep => Spec::Grep(grep(alloc, given)?),
        VerbName::GroupBy => return Ok(VerbSpec::Retain(RetainSpec::GroupBy(group_by(
            alloc, given,
        )?))),
        VerbName::GroupLike => return Ok(VerbSpec::Retain(RetainSpec::GroupLike)),
        VerbName::Gsub => Spec::Gsub(gsub(alloc, given)?),
        VerbName::HavingFields => Spec::HavingFields(having_fields(alloc, given)?),
        VerbName::Head => Spec::Head(head(alloc, given)?),
        VerbName::Join => return Ok(VerbSpec::Shape(ShapeSpec::Join(join(alloc, read, given)?))),
        VerbName::JsonParse => Spec::JsonParse(json_parse(alloc, given)?),
        VerbName::JsonStringify => Spec::JsonStringify(json_stringify(alloc, given)?),
        VerbName::Label => Spec::Label(label(alloc, given)?),
        VerbName::LeastFrequent => return Ok(VerbSpec::Retain(RetainSpec::LeastFrequent(frequent(
            alloc, given,
        )?))),
        VerbName::MergeFields => return Ok(VerbSpec::Stat(StatSpec::MergeFields(merge_fields(
            alloc, given,
        )?))),
        VerbName::MostFrequent => return Ok(VerbSpec::Retain(RetainSpec::MostFrequent(frequent(
            alloc, given,
        )?))),
        VerbName::Nest => return Ok(VerbSpec::Shape(ShapeSpec::Nest(nest(alloc, given)?))),
        VerbName::Nothing => Spec::Nothing,
        VerbName::Regularize => Spec::Regularize,
        VerbName::Rename => Spec::Rename(rename(alloc, given)?),
        VerbName::Reorder => Spec::Reorder(reorder(alloc, given)?),
        VerbName::Repeat => Spec::Repeat(repeat(alloc, given)?),
        VerbName::Reshape => return Ok(VerbSpec::Shape(ShapeSpec::Reshape(reshape(alloc, given)?))),
        VerbName::Sec2Gmt => Spec::Sec2Gmt(sec2gmt(alloc, given)?),
        VerbName::Sec2GmtDate => Spec::Sec2GmtDate(sec2gmtdate(alloc, given)?),
        VerbName::Seqgen => return Ok(VerbSpec::Seq(seqgen(alloc, given)?)),
        VerbName::Sort => return Ok(VerbSpec::Retain(RetainSpec::Sort(sort(alloc, given)?))),
        VerbName::SortWithinRecords => Spec::SortWithinRecords(sort_within_records(given)),
        VerbName::Sparsify => Spec::Sparsify(sparsify(alloc, given)?),
        VerbName::Ssub => Spec::Ssub(ssub(alloc, given)?),
        VerbName::Stats1 => return Ok(VerbSpec::Stat(StatSpec::Stats1(stats1(alloc, given)?))),
        VerbName::Step => return Ok(VerbSpec::Stat(StatSpec::Step(step(alloc, given)?))),
        VerbName::Sub => Spec::Sub(sub(alloc, given)?),
        VerbName::Tac => return Ok(VerbSpec::Retain(RetainSpec::Tac)),
        VerbName::Tail => return Ok(VerbSpec::Retain(RetainSpec::Tail(tail(alloc, given)?))),
        VerbName::Template => Spec::Template(template(alloc, given)?),
        VerbName::Top => return Ok(VerbSpec::Stat(StatSpec::Top(top(alloc, given)?))),
        VerbName::Unflatten => Spec::Unflatten(unflatten(alloc, flatsep, given)?),
        VerbName::Uniq => return Ok(VerbSpec::Retain(RetainSpec::Uniq(uniq(alloc, given)?))),
        VerbName::Unspace => Spec::Unspace(unspace(alloc, given)?),
        VerbName::Unsparsify => return Ok(VerbSpec::Retain(RetainSpec::Unsparsify(unsparsify(
            alloc, given,
        )?))),
    };
    Ok(VerbSpec::Stream(spec))
}
