//! Whether the objects of a store are sound, and if not, what is the first that is wrong.
#![tactic(auto)]

mod batches;
mod checks;
mod faults;
mod ids;
mod named;
mod printing;
mod reads;
mod shown;

pub use checks::check_soundness;
pub use faults::{CheckpointFault, ManifestFault, Soundness, SoundnessFault};
pub use printing::print_soundness;
pub use shown::{show_checkpoints, show_logs, show_manifests, show_sweep, show_tables};
