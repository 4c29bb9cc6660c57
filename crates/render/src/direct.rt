ghost use Rattle.std.specs.Prelude.{◌≡◌, ◌+◌};
ghost use Rattle.render.specs.Bound.{bound};
ghost use Rattle.render.specs.Draws.{limits_answer, index_within, within_answer, draw_answer};
ghost use Rattle.render.specs.Laws.{LimitsAnswered, AcceptedExactly};

use super::bindings::Bindings;
use super::limits::{VertexLimits, check_limit};
use command::args::DrawArgs;
use command::family::DrawCommandFamily;
use command::refusal::Refusal;

/// What a draw of a family is held to: the limits as they are when it is asked for.
#[derive(Clone, Copy)]
pub struct DrawLimits {
    pub family: DrawCommandFamily,
    /// How many vertices are bound, or how many indices for an indexed draw.
    pub vertex_or_index_limit: u64,
    /// How many instances are bound.
    pub instance_limit: u64,
}

/// Holds the indices that a draw names to the index binding.
fn validate_index_limit(limit: u64, args: DrawArgs) -> Result<(), Refusal>
    ensures { result ≡ index_within limit (args.first + args.count) }
{
    check_limit(args.last(), limit).map_err(Refusal::IndexBeyondLimit)
}

/// Holds a draw to the limits, its vertices or indices before its instances, and answers whether it has anything to draw.
fn validate_draw(
    limits: &VertexLimits,
    index_limit: u64,
    family: DrawCommandFamily,
    args: DrawArgs,
) -> Result<bool, Refusal>
    ensures { result ≡ within_answer limits.now index_limit family args }
{
    match family {
        DrawCommandFamily::Draw => limits.validate_vertex_limit(args)?,
        DrawCommandFamily::DrawIndexed => validate_index_limit(index_limit, args)?,
    }
    limits.validate_instance_limit(args)?;
    Ok(args.count > 0 && args.instances > 0)
}

// A kind is any number here, as in `is_ready`.
impl Bindings {
    /// The limits of a draw of this kind, or why none can be asked for.
    /// A draw is within them exactly where the ranges that are bound carry it.
    pub fn draw_limits(&self, kind: u64) -> Result<DrawLimits, Refusal>
        ensures answer { result ≡ limits_answer (bound self.now) kind }
        ensures decides { LimitsAnswered (bound self.now) result }
    {
        let family = self.is_ready(kind)?;
        let limits = self.limits();
        let vertex_or_index_limit = match family {
            DrawCommandFamily::Draw => limits.vertex_limit,
            DrawCommandFamily::DrawIndexed => self.index_limit(),
        };
        Ok(DrawLimits {
            family,
            vertex_or_index_limit,
            instance_limit: limits.instance_limit,
        })
    }

    /// Judges a direct draw. An accepted one answers whether both of its counts are above 0.
    /// It is accepted exactly where it can be asked for and the ranges that are bound carry it.
    pub fn check_draw(&self, kind: u64, args: DrawArgs) -> Result<bool, Refusal>
        ensures answer { result ≡ draw_answer (bound self.now) kind args }
        ensures exactly { AcceptedExactly (bound self.now) kind args result }
    {
        let family = self.is_ready(kind)?;
        validate_draw(&self.limits(), self.index_limit(), family, args)
    }
}
