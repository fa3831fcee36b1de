// One line of a text. Each `as` narrows a number that fits: its bounds say so, and no lossless `From` does it.
ghost use Rattle.std.specs.Prelude.{◌≡◌, ℕ, ◌*◌, ◌≤◌, IfOk, OnOk};
ghost use Rattle.sheet.specs.Limits.{grade_most, zones_most, width_least, width_most};
ghost use Rattle.sheet.specs.Lines.{target_column, trim_column, read_end, read_head, read_zone, head_text, zone_text, judge_zone};
ghost use Rattle.sheet.specs.Ranges.{ZoneInRange};
ghost use Rattle.sheet.specs.Texts.{count_zones, text_bytes};

use crate::column::{Column, write_column};
use crate::fault::{ColumnFault, Fault, Place};
use crate::limits::*;
use crate::zone::Zone;
use std::ops::Range;

// Where the columns of line 0 stand.
const GRADE: Range<usize> = 0..6;

const COUNT: Range<usize> = 6..10;

const WIDTH: Range<usize> = 10..16;

// Where those of a zone's line stand.
const NUMBER: Range<usize> = 0..4;

const TARGET: Range<usize> = 4..10;

const TRIM: Range<usize> = 10..16;

// What line 0 tells besides the count of zones.
#[derive(Clone, Copy)]
pub(crate) struct Head {
    pub(crate) grade: u32,
    pub(crate) width: u16,
}

fn target_column(i: usize) -> Column<u32>
    ensures { result ≡ target_column i }
{
    Column::at(i, 2, 0, TARGET_MOST)
}

fn trim_column(i: usize) -> Column<i32>
    ensures { result ≡ trim_column i }
{
    Column::at(i, 3, TRIM_LEAST, TRIM_MOST)
}

// The end of a line is its column 4.
fn read_end(line: usize, bytes: &[u8; LINE_BYTES]) -> Result<(), ColumnFault>
    ensures { result ≡ read_end line bytes.now }
{
    if bytes[LINE_BYTES - 1] != b'\n' {
        return Err(ColumnFault::Shape(Place { line, column: 4 }));
    }
    Ok(())
}

// Line 0 of a text of `count` zones. Counts and numbers of zones stay `usize`, with their bound in each `requires`: a type
// with it would be opened and made again wherever zones are counted or a line is placed, and is no plainer.
pub(crate) fn read_head(count: usize, bytes: &[u8; LINE_BYTES]) -> Result<Head, ColumnFault>
    requires { count ≤ zones_most }
    ensures value { result ≡ read_head count bytes.now }
    ensures grades { IfOk result (λ h. (1 ≤ h.grade) × (h.grade ≤ grade_most)) }
    ensures widths { IfOk result (λ h. (width_least ≤ h.width) × (h.width ≤ width_most)) }
{
    let zones = count as u32;
    let grade = Column::at(0, 1, 1, GRADE_MOST).read(&bytes[GRADE])?;
    Column::at(0, 2, zones, zones).read(&bytes[COUNT])?;
    let width = Column::at(0, 3, WIDTH_LEAST, WIDTH_MOST).read(&bytes[WIDTH])?;
    read_end(0, bytes)?;
    Ok(Head {
        grade,
        width: width as u16,
    })
}

// Line `i`, of zone `i`.
pub(crate) fn read_zone(i: usize, bytes: &[u8; LINE_BYTES]) -> Result<Zone, ColumnFault>
    requires { i ≤ zones_most }
    ensures value { result ≡ read_zone i bytes.now }
    ensures bounds { IfOk result (λ z. ZoneInRange z) }
{
    let number = i as u32;
    Column::at(i, 1, number, number).read(&bytes[NUMBER])?;
    let target = target_column(i).read(&bytes[TARGET])?;
    let trim = trim_column(i).read(&bytes[TRIM])?;
    read_end(i, bytes)?;
    Ok(Zone {
        target: target as u16,
        trim: trim as i16,
    })
}

// Whether zone `i` may be set so, by its places in line `i`.
pub(crate) fn judge_zone(i: usize, zone: Zone) -> Result<(), ColumnFault>
    ensures value { result ≡ judge_zone i zone }
    ensures bounds { OnOk result (ZoneInRange zone) }
{
    target_column(i).check(u32::from(zone.target))?;
    trim_column(i).check(i32::from(zone.trim))?;
    Ok(())
}

#[tactic(auto, using(crate::proofs::LineLaid::four_have_room, crate::proofs::LineLaid::six_have_room))]
pub(crate) fn write_head(head: Head, count: usize, out: &mut [u8; LINE_BYTES])
    requires grades { head.grade ≤ grade_most }
    requires counts { count ≤ zones_most }
    requires widths { head.width ≤ width_most }
    ensures { out.new ≡ head_text head.grade count head.width }
{
    write_column(&mut out[GRADE], head.grade);
    write_column(&mut out[COUNT], count as u32);
    write_column(&mut out[WIDTH], u32::from(head.width));
    out[LINE_BYTES - 1] = b'\n';
}

#[tactic(auto, using(crate::proofs::LineLaid::four_have_room, crate::proofs::LineLaid::six_have_room))]
pub(crate) fn write_zone(i: usize, zone: Zone, out: &mut [u8; LINE_BYTES])
    requires number { i ≤ zones_most }
    requires bounds { ZoneInRange zone }
    ensures { out.new ≡ zone_text i zone }
{
    write_column(&mut out[NUMBER], i as u32);
    write_column(&mut out[TARGET], u32::from(zone.target));
    write_column(&mut out[TRIM], i32::from(zone.trim));
    out[LINE_BYTES - 1] = b'\n';
}

// How many zones a text of so many bytes has.
pub(crate) fn count_zones(bytes: usize) -> Result<usize, Fault>
    ensures value { result ≡ count_zones bytes }
    ensures bounds { IfOk result (λ n. (1 ≤ n) × (n ≤ zones_most) × (bytes ≡ text_bytes n)) }
{
    let lines = bytes / LINE_BYTES;
    if bytes % LINE_BYTES != 0 || !(2..=ZONES_MOST + 1).contains(&lines) {
        return Err(Fault::TextLength);
    }
    Ok(lines - 1)
}
