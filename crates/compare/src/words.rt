// The words that memory consists of, each with the source that is laid on them.
use crate::extent::Extent;
use octets::ByteSource;
use packed::PackedSource;
use source::{Footprint, JumpSource, Size, SizeRefusal};
use std::alloc::AllocError;
use table::TableSource;

// What is done with a source, whichever it is.
pub trait Task {
    fn put<S: JumpSource + Drop>(self, source: S) -> Result<(), AllocError>;
}

pub trait Word: Copy + PartialEq + From<u8> {
    // Where every word is this one, every cell is open.
    const OPEN: Self;

    // How many words a plan of this size takes.
    // Kept: worked out here, and not asked of the source, since it is a rule of the project that what checks the answers shares no formula with them.
    fn needed(size: Extent) -> usize;

    // The size of the plan, if it can be laid on so many words.
    fn check(size: Extent, have: usize) -> Result<Size, SizeRefusal>;

    // Makes a source on the memory for the task.
    fn lay<T: Task>(memory: &mut [Self], size: Extent, task: T) -> Result<(), AllocError>;
}

impl Word for u8 {
    const OPEN: u8 = 0;

    fn needed(size: Extent) -> usize {
        size.cells()
    }

    fn check(size: Extent, have: usize) -> Result<Size, SizeRefusal> {
        ByteSource::check(size.rows, size.cols, have)
    }

    fn lay<T: Task>(memory: &mut [u8], size: Extent, task: T) -> Result<(), AllocError> {
        task.put(ByteSource::make(memory, size.rows, size.cols))
    }
}

impl Word for u64 {
    const OPEN: u64 = 0;

    // Words for the rows, and then for the columns.
    fn needed(size: Extent) -> usize {
        let by_rows = size.rows.saturating_mul(size.cols.div_ceil(64));
        by_rows.saturating_add(size.cols.saturating_mul(size.rows.div_ceil(64)))
    }

    fn check(size: Extent, have: usize) -> Result<Size, SizeRefusal> {
        PackedSource::check(size.rows, size.cols, have)
    }

    fn lay<T: Task>(memory: &mut [u64], size: Extent, task: T) -> Result<(), AllocError> {
        task.put(PackedSource::make(memory, size.rows, size.cols))
    }
}

impl Word for u16 {
    const OPEN: u16 = 1;

    fn needed(size: Extent) -> usize {
        size.cells().saturating_mul(9)
    }

    fn check(size: Extent, have: usize) -> Result<Size, SizeRefusal> {
        TableSource::check(size.rows, size.cols, have)
    }

    fn lay<T: Task>(memory: &mut [u16], size: Extent, task: T) -> Result<(), AllocError> {
        task.put(TableSource::make(memory, size.rows, size.cols))
    }
}
