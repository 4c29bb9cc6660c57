use super::tables::Tables;
use places::current::CurrentEntry;

// A kind's tables and its place stay apart, as in the Rust, where `DrawResources` holds the tables and is handed the
// place: a call lends the tables as a supply and moves the place beside it.
/// What a recorder keeps: its device, the tables of each kind, and the place after the last of each kind.
#[derive(Drop)]
pub struct Recorder<D> {
    pub device: D,
    pub destination: Tables,
    pub metadata: Tables,
    pub current_destination: Option<CurrentEntry>,
    pub current_metadata: Option<CurrentEntry>,
}
