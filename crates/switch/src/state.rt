// What a switch is about.
use crate::running::Running;

#[derive(Drop)]
pub enum State {
    // No program is loaded.
    Unloaded,
    Running(Running),
    // An unknown kind came, and nothing more is read.
    Stopped,
}
