ghost use Rattle.command.specs.Family.{argument_answer, family_answer, kind_of, is_indexed, src_stride, dst_stride};
ghost use Rattle.std.specs.Prelude.{◌≡◌};

use super::refusal::Refusal;

/// Which sort of draw a request asks for; its number at the boundary is its kind.
#[derive(Clone, Copy, Default, PartialEq, Eq)]
pub enum DrawCommandFamily {
    /// Kind 0: vertices in order.
    #[default]
    Draw,
    /// Kind 1: vertices by an index buffer.
    DrawIndexed,
}

/// The family of a kind, or refusal 7 for a number that names none.
// Modes of steps and widths of indices have such tables too: each has its own numbers and its own refusal.
impl TryFrom<u64> for DrawCommandFamily {
    type Error = Refusal;

    ghost try_from_gives = { λ kind answer. answer ≡ family_answer kind };

    fn try_from(kind: u64) -> Result<DrawCommandFamily, Refusal> {
        match kind {
            0 => Ok(DrawCommandFamily::Draw),
            1 => Ok(DrawCommandFamily::DrawIndexed),
            _ => Err(Refusal::UnknownKind),
        }
    }
}

/// The kind by which callers ask for a draw of the family.
impl From<DrawCommandFamily> for u64 {
    ghost from_gives = { λ family kind. kind ≡ kind_of family };

    fn from(family: DrawCommandFamily) -> u64 {
        match family {
            DrawCommandFamily::Draw => 0,
            DrawCommandFamily::DrawIndexed => 1,
        }
    }
}

impl DrawCommandFamily {
    /// Whether a draw of the family takes its vertices by an index buffer.
    pub fn is_indexed(self) -> bool
        ensures { result ≡ is_indexed self }
    {
        self == DrawCommandFamily::DrawIndexed
    }
}

/// How many bytes the arguments of one draw take in the source.
pub fn get_src_stride_of_indirect_args(family: DrawCommandFamily) -> u64
    ensures { result ≡ src_stride family }
{
    match family {
        DrawCommandFamily::Draw => 16,
        DrawCommandFamily::DrawIndexed => 20,
    }
}

/// How many bytes one draw takes in the destination: no backend here wants words of its own before the arguments.
pub fn get_dst_stride_of_indirect_args(family: DrawCommandFamily) -> u64
    ensures { result ≡ dst_stride family }
{
    get_src_stride_of_indirect_args(family)
}

/// Judges where the arguments of a draw stand in a source of `size` bytes: refusal 12 where they do not begin at a
/// multiple of four, refusal 13 where they do not end inside the source.
pub fn check_arguments(family: DrawCommandFamily, size: u64, offset: u64) -> Result<(), Refusal>
    ensures { result ≡ argument_answer src_stride family size offset }
{
    if offset % 4 != 0 {
        return Err(Refusal::UnalignedIndirectBufferOffset);
    }
    let stride = get_src_stride_of_indirect_args(family);
    if size < stride || offset > size - stride {
        return Err(Refusal::IndirectBufferOverrun);
    }
    Ok(())
}
