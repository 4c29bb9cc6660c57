ghost use Rattle.std.specs.Prelude.{◌≡◌, ℕ, ◌/◌, ◌%◌, ◌^◌, ◌<◌, Bool, Some, replicate};
ghost use Rattle.entry.specs.Entries.{Alike, family_by, packed, unpacked};
ghost use Rattle.entry.specs.Verdicts.{argument_family, argument_words, checked, draw_args_of, judged, kept, read_arguments, verdict, word_count, words_of};

use super::metadata::{MetadataEntry, Unpacked};
use command::args::DrawArgs;
use command::family::DrawCommandFamily;

/// The words that a check writes to the destination.
#[derive(Clone, Copy)]
pub enum Arguments {
    Draw([u32; 4]),
    DrawIndexed([u32; 5]),
}

impl Arguments {
    /// The arguments of a draw that begin the words, or nothing where the words do not hold them all.
    fn read(family: DrawCommandFamily, words: &[u32]) -> Option<Arguments>
        ensures words { words_of result ≡ read_arguments family 0 words.now }
        ensures kind { (a : Arguments) → result ≡ Some a → argument_family a ≡ family }
    {
        let [count, instances, first, rest @ ..] = words else {
            return None;
        };
        match (family, rest) {
            (DrawCommandFamily::Draw, [first_instance, ..]) => {
                Some(Arguments::Draw([*count, *instances, *first, *first_instance]))
            }
            (DrawCommandFamily::DrawIndexed, [base_vertex, first_instance, ..]) => Some(
                Arguments::DrawIndexed([*count, *instances, *first, *base_vertex, *first_instance]),
            ),
            _ => None,
        }
    }

    /// The words in the order in which a draw reads them.
    // The words are lent, where a conversion would copy them into one of two arrays.
    pub fn words(&self) -> &[u32]
        ensures { result.now ≡ argument_words self.now }
    {
        match self {
            Arguments::Draw(words) => words,
            Arguments::DrawIndexed(words) => words,
        }
    }

    /// The four words that the limits are about.
    fn draw_args(&self) -> DrawArgs
        ensures { result ≡ draw_args_of self.now }
    {
        let [count, instances, first, first_instance] = match self {
            Arguments::Draw(words) => *words,
            Arguments::DrawIndexed(words) => {
                let [count, instances, first, _, first_instance] = *words;
                [count, instances, first, first_instance]
            }
        };
        DrawArgs {
            count,
            instances,
            first,
            first_instance,
        }
    }

    /// Arguments of the same kind that draw nothing.
    fn zeros(&self) -> Arguments
        ensures words { argument_words result ≡ replicate (word_count (argument_family self.now)) 0 }
        ensures kind { argument_family result ≡ argument_family self.now }
    {
        match self {
            Arguments::Draw(_) => Arguments::Draw([0; 4]),
            Arguments::DrawIndexed(_) => Arguments::DrawIndexed([0; 5]),
        }
    }
}

// Limits are cut when they are packed, so that each law is of all limits that are cut alike.
impl Unpacked {
    /// Whether a draw keeps to both limits and to the rule on first instances.
    fn keeps(&self, first_instance_allowed: bool, args: DrawArgs) -> bool
        ensures { (l il : ℕ) → Alike self.now.vertex_or_index_limit l → Alike self.now.instance_limit il → result ≡ kept first_instance_allowed l il args.count args.instances args.first args.first_instance }
    {
        args.last() <= self.vertex_or_index_limit
            && args.last_instance() <= self.instance_limit
            && (args.first_instance == 0 || first_instance_allowed)
    }

    /// The arguments as they are to be written: unaltered where they keep to the limits, else zeros.
    fn judge(&self, first_instance_allowed: bool, arguments: Arguments) -> Arguments
        ensures words { (l il : ℕ) → Alike self.now.vertex_or_index_limit l → Alike self.now.instance_limit il → argument_words result ≡ judged first_instance_allowed (argument_family arguments) l il (argument_words arguments) }
        ensures kind { argument_family result ≡ argument_family arguments }
    {
        if self.keeps(first_instance_allowed, arguments.draw_args()) {
            arguments
        } else {
            arguments.zeros()
        }
    }

    /// The arguments of the entry's draw as they are to be written, or nothing where the window does not hold them all.
    fn check(&self, window: &[u32], first_instance_allowed: bool) -> Option<Arguments>
        ensures words { (l il : ℕ) → Alike self.now.vertex_or_index_limit l → Alike self.now.instance_limit il → words_of result ≡ checked first_instance_allowed self.now.family (self.now.src_offset / 4) l il window.now }
        ensures kind { (a : Arguments) → result ≡ Some a → argument_family a ≡ self.now.family }
    {
        // By `as`: a usize has 64 bits here, so that `try_from` would only add a step.
        let words = window.get((self.src_offset / 4) as usize..)?;
        let arguments = Arguments::read(self.family, words)?;
        Some(self.judge(first_instance_allowed, arguments))
    }
}

impl MetadataEntry {
    /// The check of one entry in its window: the arguments unaltered where they keep to the entry's limits, else zeros,
    /// and nothing where the entry reads outside the window.
    pub fn validate(&self, window: &[u32], first_instance_allowed: bool) -> Option<Arguments>
        ensures words { words_of result ≡ verdict first_instance_allowed (unpacked self.now) window.now }
        ensures kind { (a : Arguments) → result ≡ Some a → argument_family a ≡ (unpacked self.now).family }
        ensures uncut { (indexed : Bool) (src dst l1 l2 : ℕ) → src % 4 ≡ 0 → src < 2 ^ 32 → dst < 2 ^ 32 → self.now ≡ packed indexed src dst l1 l2 → words_of result ≡ checked first_instance_allowed (family_by indexed) (src / 4) l1 l2 window.now }
    {
        self.unpack().check(window, first_instance_allowed)
    }
}
