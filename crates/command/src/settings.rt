ghost use Rattle.std.specs.Prelude.{◌≡◌, ℕ, ◌^◌, ◌<◌, Bool, true, is_ok, MatchResult};
ghost use Rattle.command.specs.Lawful.{lawful};

use super::refusal::Refusal;

/// The two numbers of a device by which windows over sources are cut, proved to fit one another.
#[derive(Clone, Copy)]
pub struct Settings {
    /// A window begins at a multiple of this many bytes.
    alignment: u64,
    /// A window is at most this many bytes long.
    largest_binding: u64,
    ghost ok: { lawful alignment largest_binding ≡ true },
}

impl Settings {
    /// Settings of an alignment and a largest binding, or refusal 1 where they do not fit one another.
    pub fn new(alignment: u64, largest_binding: u64) -> Result<Settings, Refusal>
        ensures accepted { is_ok result ≡ lawful alignment largest_binding }
        ensures value { MatchResult result (λ s. (s.alignment ≡ alignment) × (s.largest_binding ≡ largest_binding)) (λ e. e ≡ Refusal.UnlawfulSettings) }
    {
        let aligned = matches!(alignment, 32 | 64 | 128 | 256);
        if !aligned || largest_binding < 2 * alignment + 20 || largest_binding > 4_294_967_295 {
            return Err(Refusal::UnlawfulSettings);
        }
        Ok(Settings {
            alignment,
            largest_binding,
        })
    }

    pub fn alignment(&self) -> u64
        ensures { result ≡ self.now.alignment }
    {
        self.alignment
    }

    pub fn largest_binding(&self) -> u64
        ensures { result ≡ self.now.largest_binding }
    {
        self.largest_binding
    }
}
