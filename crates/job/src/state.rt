// How a job stands.
use board::{Gate, Word};
use cover::Sheet;
use net::Net;
use run::{Going, Halted};

// No net yet; a net that is drawn, with or without arcs; a net on a sheet; a run that goes; a run that is halted.
pub enum State {
    NoNet,
    Drawn(Net),
    OnSheet(Sheet),
    Going(Going<Gate<Word>>),
    Halted(Halted<Gate<Word>>),
}
