// Every limit of a grade sheet, once. Widths are in mm, targets and trims in hundredths of a per cent moisture.

pub(crate) const GRADE_MOST: u32 = 99999;

pub(crate) const ZONES_MOST: usize = 48;

pub(crate) const WIDTH_LEAST: u32 = 100;

pub(crate) const WIDTH_MOST: u32 = 9999;

pub(crate) const TARGET_MOST: u32 = 10000;

pub(crate) const TRIM_LEAST: i32 = -500;

pub(crate) const TRIM_MOST: i32 = 500;

// The bytes of a line of text: three columns, sixteen together, and a line feed.
pub(crate) const LINE_BYTES: usize = 17;
