//! Words of a verb that contradict each other.
ghost use Rattle.std.specs.Prelude.{◌≡◌, [], IfOk, map};
ghost use Rattle.std.specs.List.{list_any};
ghost use Rattle.mlr_event.specs.Reading.{is_among};
ghost use Rattle.cli_verbs.specs.Clash.{are_rivals, clash_after, clash_of, direction, earlier, exclusive_groups, first_number, has_repeated, is_not_of_two, is_odd_rename, is_whole_of_several, later_of_whole, names_clash, names_contradict, names_number, option_clash, are_in};

use cli_choices::{all_names, names_after, number_or, word_or};
use cli_grammar::{Given, Group, VerbName, VerbWords};
use cli_shape::join::is_uneven;
use mlr_record::split::count_parts;
use mlr_spec::NoMemory;
use std::alloc::Global;
use verbs_fields::are_distinct;

/// The number of the first word that contradicts an earlier one.
pub fn clash_of(alloc: Global, given: &VerbWords) -> Result<Option<usize>, NoMemory>
    ensures { IfOk result (λ number. number ≡ clash_of given.now) }
{
    let names = names_clash(alloc, given)?;
    Ok(earlier(option_clash(given), names))
}

/// The lesser of two numbers, or the one that is there.
fn earlier(one: Option<usize>, other: Option<usize>) -> Option<usize>
    ensures { result ≡ earlier one other }
{
    match (one, other) {
        (Some(one), Some(other)) => Some(one.min(other)),
        (Some(one), None) => Some(one),
        (None, other) => other,
    }
}

/// The number of the first option that contradicts an earlier one.
fn option_clash(given: &VerbWords) -> Option<usize>
    ensures { result ≡ option_clash given.now }
{
    first_clash(exclusive_groups(given.verb), given.options.as_slice())
}

/// Groups of options of which at most one may be given. Of `join` and `sort` every option counts.
fn exclusive_groups(verb: VerbName) -> &'static [Group]
    ensures { map (λ group. (map (λ name. name.now) group.0.now, group.1)) result.now
        ≡ exclusive_groups verb }
{
    match verb {
        VerbName::Join | VerbName::Sort => &[],
        _ => verb.row().groups,
    }
}

/// The number of the first of these options that contradicts an earlier one.
fn first_clash(groups: &[Group], options: &[Given]) -> Option<usize>
    ensures { result ≡ clash_after
        (map (λ group. (map (λ name. name.now) group.0.now, group.1)) groups.now) [] options.now }
{
    for (place, given) in options.iter().enumerate() {
        if has_rival(groups, &options[..place], given.name.as_slice()) {
            return Some(given.number);
        }
    }
    None
}

/// Whether one of these options contradicts the option with this name.
fn has_rival(groups: &[Group], before: &[Given], name: &[u8]) -> bool
    ensures { result ≡ list_any (λ other. are_rivals
        (map (λ group. (map (λ name. name.now) group.0.now, group.1)) groups.now)
        name.now other.name) before.now }
{
    for other in before {
        if are_rivals(groups, name, other.name.as_slice()) {
            return true;
        }
    }
    false
}

/// Whether two names are different options of one group.
fn are_rivals(groups: &[Group], name: &[u8], other: &[u8]) -> bool
    ensures { result ≡ are_rivals
        (map (λ group. (map (λ name. name.now) group.0.now, group.1)) groups.now)
        name.now other.now }
{
    name != other && are_in_one(groups, name, other)
}

/// Whether two names are options of one group.
fn are_in_one(groups: &[Group], name: &[u8], other: &[u8]) -> bool
    ensures { result ≡ list_any (are_in name.now other.now)
        (map (λ group. (map (λ name. name.now) group.0.now, group.1)) groups.now) }
{
    for group in groups {
        if is_among(group.0, name) && is_among(group.0, other) {
            return true;
        }
    }
    false
}

/// Whether a name is among these.
fn is_among(names: &[&[u8]], name: &[u8]) -> bool
    ensures { result ≡ is_among (map (λ name. name.now) names.now) name.now }
{
    for other in names {
        if name == *other {
            return true;
        }
    }
    false
}

/// The number of the word where the names of `join`, `label`, `rename`, `reshape` or `top` contradict each other or an option.
fn names_clash(alloc: Global, given: &VerbWords) -> Result<Option<usize>, NoMemory>
    ensures { IfOk result (λ number. number ≡ names_clash given.now.verb given.now) }
{
    Ok(if names_contradict(alloc, given)? {
        Some(names_number(given))
    } else {
        None
    })
}

/// Whether the names contradict each other or an option.
fn names_contradict(alloc: Global, given: &VerbWords) -> Result<bool, NoMemory>
    ensures { IfOk result (λ contradict. contradict ≡ names_contradict given.now.verb given.now) }
{
    match given.verb {
        VerbName::Join => Ok(is_uneven(given)),
        VerbName::Label => has_repeated(alloc, given),
        VerbName::Rename => Ok(is_odd_rename(given)),
        VerbName::Reshape => Ok(is_not_of_two(given)),
        VerbName::Top => is_whole_of_several(alloc, given),
        _ => Ok(false),
    }
}

/// The number of the word that contradicts the names, or of the names themselves; of `join` that of the verb.
fn names_number(given: &VerbWords) -> usize
    ensures { result ≡ names_number given.now.verb given.now }
{
    match given.verb {
        VerbName::Join => given.number,
        VerbName::Reshape => number_or(given.options.as_slice(), direction(given), 0),
        VerbName::Top => later_of_whole(given.options.as_slice()),
        _ => given.own,
    }
}

/// Whether a name repeats.
fn has_repeated(alloc: Global, given: &VerbWords) -> Result<bool, NoMemory>
    ensures { IfOk result (λ repeated. repeated ≡ has_repeated given.now) }
{
    let names = all_names(alloc, given.word(0))?;
    Ok(!are_distinct(&names))
}

/// Whether the last name has no name that replaces it.
fn is_odd_rename(given: &VerbWords) -> bool
    ensures { result ≡ is_odd_rename given.now }
{
    count_parts(b",", given.word(0)) % 2 == 1
}

/// The option of `reshape` that names two fields.
fn direction(given: &VerbWords) -> &'static [u8]
    ensures { result.now ≡ direction given.now }
{
    if given.has(b"-s") { b"-s" } else { b"-o" }
}

/// Whether the last `-s` or `-o` of `reshape` doesn't have two names.
fn is_not_of_two(given: &VerbWords) -> bool
    ensures { result ≡ is_not_of_two given.now }
{
    count_parts(b",", word_or(given, direction(given), b"")) != 2
}

/// Whether `top -a` has several names.
fn is_whole_of_several(alloc: Global, given: &VerbWords) -> Result<bool, NoMemory>
    ensures { IfOk result (λ clashes. clashes ≡ is_whole_of_several given.now) }
{
    let names = names_after(alloc, given, b"-f")?;
    Ok(given.has(b"-a") && names.len() > 1)
}

/// The number of the first `-a` or the last `-f`, whichever is later.
fn later_of_whole(options: &[Given]) -> usize
    ensures { result ≡ later_of_whole options.now }
{
    first_number(options, b"-a").max(number_or(options, b"-f", 0))
}

/// The number of the first of these options with this name; 0 where there is none.
fn first_number(options: &[Given], name: &[u8]) -> usize
    ensures { result ≡ first_number name.now options.now }
{
    for given in options {
        if given.name.as_slice() == name {
            return given.number;
        }
    }
    0
}
