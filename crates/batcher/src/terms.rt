use command::settings::Settings;
use command::sizes::Sizes;

/// What stays the same in all calls of a frame: by it draws are placed and windows are cut.
#[derive(Clone, Copy)]
pub struct FrameTerms {
    pub settings: Settings,
    pub sizes: Sizes,
}
