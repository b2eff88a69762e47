//! What a returns collects for its nodes.
ghost use Rattle.std.specs.Prelude.{◌≡◌, ◌++◌, OnOk};
ghost use Rattle.plan_builder.specs.Ways.{multiple_by};
ghost use Rattle.plan_builder.specs.Collects.{collects_of, whole_of, wholes_of};

use crate::ways::{Reading, multiple_of};
use flow_value::{NoMemory, Seq};
use plan_data::{Feed, Port};
use step_code::Collect;

fn add_whole(plain: u32, feed: Feed, collects: &mut Seq<Collect>) -> Result<(), NoMemory>
    ensures { OnOk result (collects.new ≡ collects.old ++ whole_of (multiple_by plain feed)) }
{
    match multiple_of(plain, feed) {
        Some(column) => collects.add(Collect::Sifts {
            column,
            mask: None,
            copies: false,
        }),
        None => Ok(()),
    }
}

fn add_wholes(plain: u32, ins: &[Port], collects: &mut Seq<Collect>) -> Result<(), NoMemory>
    ensures { OnOk result (collects.new ≡ collects.old ++ wholes_of plain ins.now) }
{
    for port in ins {
        add_whole(plain, port.feed, collects)?;
    }
    Ok(())
}

/// Puts what a returns collects for a node with these ports, which reads multiples so, behind the
/// others. Nothing is copied where values are put. After want of memory some of it may have been put.
pub fn add_collects(
    plain: u32,
    reading: Reading,
    ins: &[Port],
    collects: &mut Seq<Collect>,
) -> Result<(), NoMemory>
    ensures { OnOk result (collects.new ≡ collects.old ++ collects_of reading plain ins.now) }
{
    match reading {
        Reading::Last(column) => collects.add(Collect::Final { column }),
        Reading::Kept(column, mask) => collects.add(Collect::Sifts {
            column,
            mask: Some(mask),
            copies: false,
        }),
        Reading::Whole => add_wholes(plain, ins, collects),
    }
}
