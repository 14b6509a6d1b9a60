// Fetch lists and slots as calls hand them over, and room that a call is lent for a list.
ghost use Rattle.std.specs.Prelude.{◌≡◌};
ghost use Rattle.refusals.specs.Numbers.{refusal_number};
ghost use Rattle.fetch.specs.Slices.{slices_refusal};
ghost use Rattle.fetch.specs.Handed.{handed_list};
ghost use Rattle.fetch.specs.VerdictFrom.{slot_refusal};

use job::Programme;
use refusals::{Refusal, refuse_unless};

// Rows in four slices of one length: a row is an element of each.
#[derive(Clone, Copy)]
pub struct Rows<'a> {
    pub slots: &'a [u16],
    pub chunks: &'a [u16],
    pub layers: &'a [u8],
    pub bytes: &'a [u32],
}

// A list with its marks, one byte a chunk.
#[derive(Clone, Copy)]
pub struct FetchList<'a> {
    pub marks: &'a [u8],
    pub rows: Rows<'a>,
}

// Room for a list: what is written stands at the front of each slice.
#[derive(Drop)]
pub struct LentList<'a> {
    pub marks: &'a mut [u8],
    pub slots: &'a mut [u16],
    pub chunks: &'a mut [u16],
    pub layers: &'a mut [u8],
    pub bytes: &'a mut [u32],
}

// Refusal 8 of a list handed with its marks.
#[tactic(auto, unfolding(crate::specs::Input::list_refusal))]
pub fn accept_list(count: u16, list: &FetchList) -> Result<(), Refusal>
    ensures { refusal_number result ≡ slices_refusal count (handed_list list.now) }
{
    let rows = list.rows;
    let n = rows.slots.len();
    let whole = n == rows.chunks.len() && n == rows.layers.len() && n == rows.bytes.len();
    refuse_unless(
        list.marks.len() == (count as usize) && whole,
        Refusal::NotWhole,
    )
}

// 21: a slot not from 1 to d(C).
pub fn accept_slot(p: Programme, slot: u16) -> Result<(), Refusal>
    ensures { refusal_number result ≡ slot_refusal p slot }
{
    let within = 1 <= slot && (slot as usize) <= job::last_due(p);
    refuse_unless(within, Refusal::Slot)
}
