// A program that runs.
use pipeline::pipeline::Pipeline;
use program::headers::Headers;

// The headers by which packets are taken apart and put together, and the pipeline, which has the rest of the program.
#[derive(Drop)]
pub struct Running {
    pub(crate) headers: Headers,
    pub(crate) pipeline: Pipeline,
}
