//! The flags of `sort`.
ghost use Rattle.std.specs.Prelude.{◌≡◌, ◌++◌, IfOk, OnOk};
ghost use Rattle.std.specs.List.{filter_map};
ghost use Rattle.std.specs.Option.{option_to_list};
ghost use Rattle.cli_retain.specs.Sort.{flag_of, order_named, sort_of};

use cli_choices::names_in;
use cli_grammar::{Given, VerbWords};
use mlr_list::List;
use mlr_spec::{NoMemory, Order};
use std::alloc::Global;
use verbs_retain::{Sort, SortFlag};

/// The flags of `sort`, each of which counts.
pub fn sort(alloc: Global, given: &VerbWords) -> Result<Sort, NoMemory>
    ensures { IfOk result (λ options. options ≡ sort_of given.now) }
{
    let mut flags = List::new(alloc);
    for option in given.options.as_slice() {
        push_flag(alloc, option, &mut flags)?;
    }
    Ok(Sort { flags })
}

/// Appends the flag of an option.
fn push_flag(alloc: Global, option: &Given, flags: &mut List<SortFlag>) -> Result<(), NoMemory>
    ensures { OnOk result (flags.new ≡ flags.old ++ option_to_list (flag_of option.now)) }
{
    let Some(order) = order_named(option.name.as_slice()) else {
        return Ok(());
    };
    let word = match &option.argument {
        Some(word) => word.as_slice(),
        None => b"",
    };
    let names = names_in(alloc, word)?;
    flags.push(SortFlag { order, names })
}

/// The order of a flag.
fn order_named(name: &[u8]) -> Option<Order>
    ensures { result ≡ order_named name.now }
{
    match name {
        b"-f" => Some(Order::Text),
        b"-r" => Some(Order::TextDown),
        b"-nf" => Some(Order::Number),
        b"-nr" => Some(Order::NumberDown),
        b"-c" => Some(Order::Folded),
        b"-cr" => Some(Order::FoldedDown),
        _ => None,
    }
}
