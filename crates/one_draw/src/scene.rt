use command::family::DrawCommandFamily;
use command::refusal::Refusal;
use command::settings::Settings;
use places::counted::Counted;
use places::current::CurrentEntry;
use places::subrange::get_subrange_impl;
use render::bindings::Bindings;
use render::steps::RawStep;
use validation::follow::{Followed, Request, Rules, Source, follow};

/// Bytes of an order to draw: four numbers of four bytes.
pub const ORDER_BYTES: u64 = 16;

/// Bytes that are bound to slot 0, and bytes of them that one vertex takes.
pub const BOUND_BYTES: u64 = 36;

pub const VERTEX_BYTES: u64 = 12;

/// A window begins at a multiple of this many bytes, and has at most that many.
pub const ALIGNMENT: u64 = 256;

pub const LARGEST_WINDOW: u64 = 134_217_728;

/// How many buffers there are to write checked orders to, and the bytes of each.
pub const MOST_BUFFERS: usize = 256;

pub const BUFFER_BYTES: u64 = 1_048_560;

/// All that stands before the order is looked at.
#[derive(Drop)]
pub struct Scene {
    pub bindings: Bindings,
    pub settings: Settings,
    pub place: CurrentEntry,
    pub buffers: usize,
}

impl Scene {
    /// One slot with a range, one step that reads it for each vertex, and a place for one order.
    pub fn new() -> Result<Scene, Refusal> {
        let mut bindings = Bindings::new();
        bindings.set_slot(0, 0, BOUND_BYTES)?;
        bindings.set_steps(&[Some(RawStep {
            stride: VERTEX_BYTES,
            last_stride: VERTEX_BYTES,
            // By vertex.
            mode: 0,
        })])?;
        let settings = Settings::new(ALIGNMENT, LARGEST_WINDOW)?;
        let mut supply = Counted::new(MOST_BUFFERS);
        let mut current = None;
        let place = get_subrange_impl(&mut supply, &mut current, ORDER_BYTES, BUFFER_BYTES)?;
        Ok(Scene {
            bindings,
            settings,
            place,
            buffers: supply.held(),
        })
    }

    /// Follows the order that stands in a buffer by itself; other first copies than 0 are not allowed.
    pub fn follow(&self, order: &[u32; 4]) -> Result<Followed, Refusal> {
        let dst_offset = u32::try_from(self.place.offset).map_err(|_| Refusal::NoBuffer)?;
        let rules = Rules {
            settings: self.settings,
            first_instance_allowed: false,
        };
        let request = Request {
            kind: u64::from(DrawCommandFamily::Draw),
            source: Source {
                size: ORDER_BYTES,
                words: order,
            },
            offset: 0,
            dst_offset,
        };
        follow(&self.bindings, &rules, &request)
    }
}
