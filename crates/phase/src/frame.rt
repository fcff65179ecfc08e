// The phases of one channel sample (phase.rs, `CsiFrame::phases`): its I/Q bytes as a slice, beside the layout tag.
ghost use Rattle.std.specs.Prelude.{◌≡◌, map, ◌+◌, ◌*◌, ◌≤◌, ◌<◌, length};
ghost use Rattle.refusal.specs.Refusal.{answered_number};
ghost use Rattle.csi.specs.Layout.{max_subcarriers, entries_of, need_of, up_from, frame_refusal, Usable};
ghost use Rattle.phase.specs.Angle.{entry_angle};
ghost use Rattle.phase.specs.Phases.{phases_answer};

use crate::Phases;
use crate::tables::AtanTable;
use csi::Layout;
use refusal::Refusal;

// Puts the angles of the entries from `start` on into `out`, imaginary before real.
fn range_angles(table: &AtanTable, iq: &[u8], start: usize, out: &mut [i16])
    requires { (start + length out.old ≤ max_subcarriers) × (2 * (start + length out.old) ≤ length iq.now) }
    ensures { out.new ≡ map (entry_angle iq.now) (up_from start (length out.old)) }
{
    let entries = &iq[2 * start..].as_chunks::<2>().0[..out.len()];
    for (k, &[im, re]) in entries.iter().enumerate() {
        out[k] = table.angle(im.cast_signed(), re.cast_signed());
    }
}

// Puts the angles of a layout's entries, in their order, into `out`.
pub(crate) fn angles(iq: &[u8], layout: Layout, out: &mut [i16])
    requires { Usable layout × (need_of layout ≤ length iq.now) × (length out.old ≡ length (entries_of layout)) }
    ensures { out.new ≡ map (entry_angle iq.now) (entries_of layout) }
{
    let table = AtanTable::new();
    let (first, second) = out.split_at_mut(usize::from(layout.end.saturating_sub(layout.start)));
    range_angles(&table, iq, usize::from(layout.start), first);
    range_angles(&table, iq, usize::from(layout.start2), second);
}

// The phases of the I/Q bytes of a sample with this layout tag. Refused as by `csi::frame::check`.
pub fn phases(iq: &[u8], tag: u8) -> Result<Phases, Refusal>
    ensures answer { result ≡ phases_answer iq.now tag }
    ensures number { answered_number result ≡ frame_refusal (length iq.now) tag }
{
    csi::frame::check(iq.len(), tag)?;
    Ok(crate::steps::phases(iq, tag))
}
