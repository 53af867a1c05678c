//! Families of numbers in the text format of Prometheus.

ghost use Rattle.std.specs.Prelude.{◌≡◌, ◌++◌, OnOk};
ghost use Rattle.std.specs.List.{flat_map};
ghost use Rattle.hc_monitor.specs.Exposition.{family_text, labelled_text, number_line, number_text, sample_text, single_text};

use std::alloc::AllocError;
use std::io::Write;

/// A family of numbers.
#[derive(Clone, Copy)]
pub(crate) struct Family<'a> {
    /// Its name.
    pub(crate) name: &'a str,
    /// Whether its numbers only grow (`counter`), or not (`gauge`).
    pub(crate) kind: &'a str,
    /// What it is, in a line.
    pub(crate) help: &'a str,
}

/// A number, alone in its family.
#[derive(Clone, Copy)]
pub(crate) struct Number<'a> {
    /// The family.
    pub(crate) family: Family<'a>,
    /// The number.
    pub(crate) value: u64,
}

/// Puts what a family is at the end.
pub(crate) fn push_family(family: Family<'_>, out: &mut Vec<u8>) -> Result<(), AllocError>
    ensures { OnOk result (out.new.items ≡ out.old.items ++ family_text family.entry) }
{
    let Family { name, kind, help } = family;
    write!(out, "# HELP {name} {help}\n# TYPE {name} {kind}\n").map_err(|_| AllocError)
}

/// Puts a number of a family at the end.
fn push_number(name: &str, value: u64, out: &mut Vec<u8>) -> Result<(), AllocError>
    ensures { OnOk result (out.new.items ≡ out.old.items ++ number_text name.now value) }
{
    write!(out, "{name} {value}\n").map_err(|_| AllocError)
}

/// Puts a family of one number at the end.
fn push_single(family: Family<'_>, value: u64, out: &mut Vec<u8>) -> Result<(), AllocError>
    ensures { OnOk result (out.new.items ≡ out.old.items ++ single_text family.entry value) }
{
    push_family(family, out)?;
    push_number(family.name, value, out)
}

/// Puts families of one number each at the end.
pub(crate) fn push_numbers(numbers: &[Number<'_>], out: &mut Vec<u8>) -> Result<(), AllocError>
    ensures { OnOk result (out.new.items ≡ out.old.items ++ flat_map number_line numbers.now) }
{
    for number in numbers {
        push_single(number.family, number.value, out)?;
    }
    Ok(())
}

/// Puts a family of two numbers at the end, which are told apart by one label.
pub(crate) fn push_both(
    family: Family<'_>,
    label: &str,
    one: (&str, u64),
    other: (&str, u64),
    out: &mut Vec<u8>,
) -> Result<(), AllocError> {
    push_family(family, out)?;
    push_labelled(family.name, label, one.0, one.1, out)?;
    push_labelled(family.name, label, other.0, other.1, out)
}

/// Puts a number of a family at the end, which is told apart by one label. The label's value has neither quotes nor backslashes
/// nor line feeds.
pub(crate) fn push_labelled(
    name: &str,
    label: &str,
    which: &str,
    value: u64,
    out: &mut Vec<u8>,
) -> Result<(), AllocError>
    ensures { OnOk result (out.new.items ≡ out.old.items ++ labelled_text name.now label.now which.now value) }
{
    write!(out, "{name}{{{label}=\"{which}\"}} {value}\n").map_err(|_| AllocError)
}

/// Puts how many replies of a mark and a class there are at the end.
pub(crate) fn push_sample(
    mark: &str,
    class: &str,
    value: u64,
    out: &mut Vec<u8>,
) -> Result<(), AllocError>
    ensures { OnOk result (out.new.items ≡ out.old.items ++ sample_text mark.now class.now value) }
{
    write!(
        out,
        "hcache_replies_total{{mark=\"{mark}\",status=\"{class}\"}} {value}\n"
    )
    .map_err(|_| AllocError)
}
