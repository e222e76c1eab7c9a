//! The tracks of each group.
ghost use Rattle.std.specs.Prelude.{◌≡◌, ◌++◌, ◌∷◌, [], List, IfOk, OnOk, map};
ghost use Rattle.mlr_groups.specs.Represents.{GroupsOf, common_of};
ghost use Rattle.verbs_base.specs.Records.{Fields};
ghost use Rattle.verbs_step.specs.Kept.{kept, kept_of};
ghost use Rattle.verbs_step.specs.Represents.{HasTracks, kept_in, kept_in_groups, kept_of_all, kept_of_group};
ghost use Rattle.verbs_step.specs.Step.{step_groups};

use crate::step::Step;
use crate::track::Track;
use mlr_groups::Groups;
use mlr_record::Record;
use mlr_spec::NoMemory;
use stat_base::Stepper;
use std::alloc::Global;

/// The place of the tracks of a record's group; a new group gets tracks. A record may be in no group.
pub(crate) fn enter(
    alloc: Global,
    options: &Step,
    fields: &Record,
    groups: &mut Groups,
    tracks: &mut Vec<Vec<Vec<Track>>>,
) -> Result<Option<usize>, NoMemory>
    ensures groups { OnOk result ((before : List Fields)
        → GroupsOf (step_groups options.now) before groups.old
        → GroupsOf (step_groups options.now) (before ++ fields.now ∷ []) groups.new) }
    ensures tracks { IfOk result (λ place. (before : List Fields)
        → GroupsOf (step_groups options.now) before groups.old
        → kept_in_groups tracks.old.items ≡ kept_of_all options.now before
        → HasTracks options.now before fields.now place tracks.new.items) }
{
    let Some(place) = groups.enter(fields)? else {
        return Ok(None);
    };
    if place >= tracks.len() {
        tracks.push(new_tracks(alloc, options)?)?;
    }
    Ok(Some(place))
}

/// The tracks of a group without records.
#[cold]
#[inline(never)]
fn new_tracks(alloc: Global, options: &Step) -> Result<Vec<Vec<Track>>, NoMemory>
    ensures { IfOk result (λ tracks. kept_in tracks.items ≡ kept_of_group options.now []) }
{
    let mut tracks = Vec::with_capacity(alloc, options.names.len())?;
    for _ in options.names.as_slice() {
        tracks.push(field_tracks(alloc, options.steppers.as_slice())?)?;
    }
    Ok(tracks)
}

/// The tracks of a field without values, one for each stepper.
fn field_tracks(alloc: Global, steppers: &[Stepper]) -> Result<Vec<Track>, NoMemory>
    ensures { IfOk result (λ tracks. map kept tracks.items
        ≡ map (λ stepper. kept_of stepper []) steppers.now) }
{
    let mut tracks = Vec::with_capacity(alloc, steppers.len())?;
    for stepper in steppers {
        tracks.push(Track::new(alloc, *stepper))?;
    }
    Ok(tracks)
}
