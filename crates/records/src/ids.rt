// The two kinds of number that must not be taken for one another: what names a task, and where its record lies.

// Names a task. Several tasks may share one, and it is never a place in the table.
#[derive(Clone, Copy, PartialEq, Eq)]
pub struct Tid(pub u32);

// A place in the table of tasks. Any number can be asked about; 0 to 63 are there.
#[derive(Clone, Copy, PartialEq, Eq)]
pub struct Slot(pub usize);
