use super::buffers::{BufferRef, BufferUses, StagingBlock};

/// Gives a buffer another use. It has to be in the first one.
#[derive(Clone, Copy, PartialEq, Eq)]
pub struct BufferBarrier {
    pub buffer: BufferRef,
    pub from: BufferUses,
    pub to: BufferUses,
}

/// Copies bytes of a staging block to a pool buffer.
#[derive(Clone, Copy, PartialEq, Eq)]
pub struct BufferCopy {
    pub block: StagingBlock,
    pub src_offset: u64,
    /// The pool buffer, by its number of making, as in the device interface.
    pub buffer: usize,
    pub dst_offset: u64,
    pub size: u64,
}

/// Checks a batch of entries: each reads the arguments of one draw in a window over a source, and writes them, or as
/// many zeros, to the destination.
#[derive(Clone, Copy, PartialEq, Eq)]
pub struct ValidationDispatch {
    /// The pool buffer that holds the entries.
    pub metadata: usize,
    /// The first entry, counted in entries of 16 bytes.
    pub start: u64,
    pub count: u64,
    /// Each group handles up to 64 entries.
    pub groups: u64,
    pub source: usize,
    /// The byte of the source at which the window begins.
    pub dynamic_offset: u64,
    /// The bytes of the window.
    pub binding_size: u64,
    /// The pool buffer that the arguments are written to.
    pub destination: usize,
}

/// What an encoder takes, as a value.
#[derive(Clone, Copy, Default, PartialEq, Eq)]
pub enum Command {
    Transition(BufferBarrier),
    Copy(BufferCopy),
    /// The default: what the unused places of a table of commands hold.
    #[default]
    Begin,
    Dispatch(ValidationDispatch),
    End,
}
