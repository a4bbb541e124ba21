// Models of the GR712RC's devices, each apart from the bus: no addresses, no script.
#![tactic(auto)]

pub mod answer;
pub mod apbuart;
pub mod fifo;
pub mod gptimer;
pub mod irqmp;
mod line;
pub mod refusal;
