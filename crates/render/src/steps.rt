ghost use Rattle.std.specs.Prelude.{◌≡◌, ◌<◌, ◌≤◌, [], ◌∷◌, ◌++◌, length};

use command::refusal::Refusal;

/// How many slots there are, and so how many steps a pipeline can have.
pub const MAX_VERTEX_BUFFERS: usize = 16;

/// What a vertex buffer advances with; its number at the boundary is its mode.
#[derive(Clone, Copy)]
pub enum VertexStepMode {
    /// Mode 0: one item for each vertex.
    Vertex,
    /// Mode 1: one item for each instance.
    Instance,
}

/// What a mode goes by, or refusal 3 for a number that names none.
impl TryFrom<u64> for VertexStepMode {
    type Error = Refusal;

    ghost use Rattle.render.specs.Requests.{mode_answer};

    ghost try_from_gives = { λ mode answer. answer ≡ mode_answer mode };

    fn try_from(mode: u64) -> Result<VertexStepMode, Refusal> {
        match mode {
            0 => Ok(VertexStepMode::Vertex),
            1 => Ok(VertexStepMode::Instance),
            _ => Err(Refusal::MalformedBinding),
        }
    }
}

/// How a pipeline reads the slot that it names.
#[derive(Clone, Copy)]
pub struct VertexStep {
    /// Bytes from one item to the next.
    pub stride: u64,
    /// Bytes that are read of the last item.
    pub last_stride: u64,
    pub mode: VertexStepMode,
}

/// A step as a caller writes it, before it is judged.
#[derive(Clone, Copy)]
pub struct RawStep {
    pub stride: u64,
    pub last_stride: u64,
    /// 0 for a step by vertex, 1 for one by instance: a number, since callers may write any.
    pub mode: u64,
}

/// A step as it is kept, or refusal 3 where its stride passes 32 bits or its mode is unknown.
impl TryFrom<RawStep> for VertexStep {
    type Error = Refusal;

    ghost use Rattle.render.specs.Requests.{read_answer};

    ghost try_from_gives = { λ raw answer. answer ≡ read_answer raw };

    fn try_from(raw: RawStep) -> Result<VertexStep, Refusal> {
        if raw.stride > u64::from(u32::MAX) {
            return Err(Refusal::MalformedBinding);
        }
        Ok(VertexStep {
            stride: raw.stride,
            last_stride: raw.last_stride,
            mode: VertexStepMode::try_from(raw.mode)?,
        })
    }
}

/// The steps of a pipeline, the one at `i` for slot `i`: the first `len` of the table.
#[derive(Clone, Copy)]
pub struct PipelineSteps {
    all: [Option<VertexStep>; MAX_VERTEX_BUFFERS],
    len: usize,
    ghost ok: { len ≤ 16 },
}

impl PipelineSteps {
    ghost use Rattle.render.specs.Bound.{listed};

    /// The steps of a pipeline that has none.
    pub(crate) fn new() -> PipelineSteps
        ensures { listed result ≡ [] }
    {
        PipelineSteps {
            all: [None; MAX_VERTEX_BUFFERS],
            len: 0,
        }
    }

    /// Adds the step of the next slot.
    pub(crate) fn push(&mut self, step: Option<VertexStep>)
        requires { length (listed self.old) < 16 }
        ensures { listed self.new ≡ listed self.old ++ step ∷ [] }
    {
        self.all[self.len] = step;
        self.len += 1;
    }

    /// The steps, from that of the first slot on.
    pub(crate) fn as_slice(&self) -> &[Option<VertexStep>]
        ensures value { result.now ≡ listed self.now }
        ensures within { length result.now ≤ 16 }
    {
        &self.all[..self.len]
    }
}
