//! Values of one name that a label tells apart.
ghost use Rattle.std.specs.Prelude.{◌≡◌, ◌++◌, OnOk};
ghost use Rattle.metrics.specs.Metrics.{family_text, label_text, labelled_line, labelled_text};

use crate::metric::{MetricKind, append_head, append_number};
use std::alloc::{AllocError, Allocator};

/// A value with what its label says. That text stands as it is: it has no quote, no backslash and no line feed.
#[derive(Clone, Copy)]
pub struct Labelled<'a> {
    pub says: &'a [u8],
    pub value: u64,
}

/// Values of one name that a label tells apart.
#[derive(Clone, Copy)]
pub struct Family<'a> {
    pub name: &'a [u8],
    /// What they are, in a line: no backslash and no line feed stand in it.
    pub help: &'a [u8],
    pub kind: MetricKind,
    /// The name of the label.
    pub label: &'a [u8],
    pub values: &'a [Labelled<'a>],
}

/// Appends a label.
fn append_label<A: Allocator>(
    out: &mut Vec<u8, A>,
    label: &[u8],
    says: &[u8],
) -> Result<(), AllocError>
    ensures { OnOk result (out.new.items ≡ out.old.items ++ label_text label.now says.now) }
{
    out.push(b'{')?;
    out.extend_from_slice(label)?;
    out.extend_from_slice(b"=\"")?;
    out.extend_from_slice(says)?;
    out.extend_from_slice(b"\"}")?;
    Ok(())
}

/// Appends the line of a value with its label.
fn append_labelled<A: Allocator>(
    out: &mut Vec<u8, A>,
    name: &[u8],
    label: &[u8],
    labelled: &Labelled<'_>,
) -> Result<(), AllocError>
    ensures { OnOk result (out.new.items ≡ out.old.items ++ labelled_line name.now label.now labelled.now) }
{
    out.extend_from_slice(name)?;
    append_label(out, label, labelled.says)?;
    append_number(out, labelled.value)
}

/// Appends the lines of values with their labels.
fn append_values<A: Allocator>(
    out: &mut Vec<u8, A>,
    name: &[u8],
    label: &[u8],
    values: &[Labelled<'_>],
) -> Result<(), AllocError>
    ensures { OnOk result (out.new.items ≡ out.old.items ++ labelled_text name.now label.now values.now) }
{
    for labelled in values {
        append_labelled(out, name, label, labelled)?;
    }
    Ok(())
}

/// Appends the values of a family, all behind the lines that say what they are and of which kind.
///
/// # Errors
///
/// Only where a growth of `out` is refused; a part may stand there then.
pub fn append_family<A: Allocator>(
    out: &mut Vec<u8, A>,
    family: &Family<'_>,
) -> Result<(), AllocError>
    ensures { OnOk result (out.new.items ≡ out.old.items ++ family_text family.now) }
{
    append_head(out, family.name, family.help, family.kind)?;
    append_values(out, family.name, family.label, family.values)
}
