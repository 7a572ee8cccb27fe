//! One row of a column of bytes.

ghost use Rattle.std.specs.Prelude.{◌↔◌, IsTrue};
ghost use Rattle.vx_tree.specs.Views.{LiesIn, AllLieIn};

use vx_value::ByteBuffer;

/// The place of a row's bytes: `size` bytes from `start` on in the data buffer `buffer`. Unlike the original's
/// `BinaryView`, it never holds the bytes itself.
#[derive(Clone, Copy, Debug)]
pub struct View {
    pub buffer: usize,
    pub start: usize,
    pub size: usize,
}

impl View {
    /// Checks whether the view lies in its buffer.
    fn lies_in(&self, buffers: &[ByteBuffer]) -> bool
        ensures { IsTrue result ↔ LiesIn buffers.now self.now }
    {
        match buffers.get(self.buffer) {
            Some(bytes) => self.start <= bytes.len() && self.size <= bytes.len() - self.start,
            None => false,
        }
    }
}

/// Checks whether each view lies in its buffer.
pub(crate) fn all_lie_in(views: &[View], buffers: &[ByteBuffer]) -> bool
    ensures { IsTrue result ↔ AllLieIn buffers.now views.now }
{
    for index in 0..views.len() {
        if !views[index].lies_in(buffers) {
            return false;
        }
    }
    true
}
