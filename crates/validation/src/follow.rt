ghost use Rattle.std.specs.Prelude.{◌≡◌, ℕ, ◌+◌, ◌/◌, ◌^◌, ◌<◌, ◌≤◌, length, take, drop, Ok, OnOk, slice_index};
ghost use Rattle.command.specs.Checks.{first};
ghost use Rattle.render.specs.Bound.{Bound, bound};
ghost use Rattle.render.specs.Laws.{LimitsDecide};
ghost use Rattle.validation.specs.Follows.{Stands, entry_for, follow_answer, followed, source_checks};
ghost use Rattle.validation.specs.Laws.{DrawnLaw, LawAnswered};

use command::family::{DrawCommandFamily, check_arguments};
use command::refusal::Refusal;
use command::settings::Settings;
use entry::metadata::MetadataEntry;
use entry::validate::Arguments;
use entry::window::{SrcOffsets, calculate_src_buffer_binding_size, calculate_src_offsets};
use render::bindings::Bindings;
use render::direct::DrawLimits;

/// A buffer of arguments: its size in bytes, and its bytes as words, the last of them perhaps in part, so that the words
/// do not tell the size.
#[derive(Clone, Copy)]
pub struct Source<'a> {
    pub size: u64,
    pub words: &'a [u32],
}

/// All that was settled about a draw on its way.
#[derive(Clone, Copy)]
pub struct Followed {
    /// Its family, and its limits as they were when it was asked for.
    pub limits: DrawLimits,
    /// How many bytes of the source a window has.
    pub binding_size: u64,
    /// Where its window begins, and where it lies in that window.
    pub window: SrcOffsets,
    pub entry: MetadataEntry,
    /// The words that are drawn.
    pub arguments: Arguments,
}

/// By what a device checks its draws.
#[derive(Clone, Copy)]
pub struct Rules {
    pub settings: Settings,
    pub first_instance_allowed: bool,
}

/// An indirect draw as it is asked for.
#[derive(Clone, Copy)]
pub struct Request<'a> {
    // A number, since any may be asked for: which are kinds is judged after what is bound.
    pub kind: u64,
    pub source: Source<'a>,
    /// The byte of the source at which its arguments begin.
    pub offset: u64,
    /// The byte of the destination at which its words are to be written.
    pub dst_offset: u32,
}

impl Source<'_> {
    /// Judges the source, then where the arguments of a draw stand in it.
    fn check(&self, family: DrawCommandFamily, offset: u64) -> Result<(), Refusal>
        ensures answer { result ≡ first (source_checks family self.now offset) (Ok tt) }
        ensures accepted { OnOk result (Stands self.now family offset) }
    {
        // Rust has no `From` of a usize into 64 bits.
        if self.size > u64::from(u32::MAX) || self.words.len() as u64 != self.size.div_ceil(4) {
            return Err(Refusal::NoSuchSource);
        }
        check_arguments(family, self.size, offset)
    }
}

/// The whole words of the window that begins at byte `start` of a source and is `size` bytes long.
// It takes words and no `Source`: that each is of 32 bits is known of a slice, and not of a field behind a reference.
fn window_in(words: &[u32], start: u64, size: u64) -> &[u32]
    requires { start / 4 + size / 4 ≤ length words.now }
    ensures value { result.now ≡ take (size / 4) (drop (start / 4) words.now) }
    ensures fit { (k : ℕ) → slice_index words.now k < 2 ^ 32 }
{
    // By `as`: a usize has 64 bits here, and `try_from` would add a failure that there is not.
    let start = (start / 4) as usize;
    let count = (size / 4) as usize;
    &words[start..start + count]
}

/// The packed entry of a draw.
// `entry_for` of batcher does the same for a request of its own; a function for both would have all the parameters of
// `MetadataEntry::new` once more.
fn pack(limits: DrawLimits, src_offset: u64, dst_offset: u32) -> MetadataEntry
    requires { src_offset < 2 ^ 32 }
    ensures { result ≡ entry_for limits src_offset dst_offset }
{
    MetadataEntry::new(
        limits.family.is_indexed(),
        src_offset,
        u64::from(dst_offset),
        limits.vertex_or_index_limit,
        limits.instance_limit,
    )
    .unwrap()
}

/// Follows a draw that nothing refuses.
fn follow_accepted(limits: DrawLimits, rules: &Rules, request: &Request) -> Followed
    requires { Stands request.now.source limits.family request.now.offset }
    ensures value { result ≡ followed rules.now limits request.now }
    ensures law { (b : Bound) → LimitsDecide b limits → DrawnLaw b rules.now request.now result }
{
    let size = request.source.size;
    let binding_size = calculate_src_buffer_binding_size(size, &rules.settings);
    let window = calculate_src_offsets(size, &rules.settings, request.offset);
    let entry = pack(limits, window.offset, request.dst_offset);
    let words = window_in(request.source.words, window.dynamic_offset, binding_size);
    let arguments = entry.validate(words, rules.first_instance_allowed);
    Followed {
        limits,
        binding_size,
        window,
        entry,
        arguments: arguments.unwrap(),
    }
}

/// Follows an indirect draw, with what is bound: what was settled about it, or why it is turned down.
pub fn follow(bindings: &Bindings, rules: &Rules, request: &Request) -> Result<Followed, Refusal>
    ensures answer { result ≡ follow_answer (bound bindings.now) rules.now request.now }
    ensures law { LawAnswered (bound bindings.now) rules.now request.now result }
{
    let limits = bindings.draw_limits(request.kind)?;
    request.source.check(limits.family, request.offset)?;
    Ok(follow_accepted(limits, rules, request))
}
