//! Lines on standard error, the line of a status, and answers to a browser and to a scrape of metrics.

mod answers;
mod assertions;
mod heads;
mod limits;
mod lines;
mod made;
mod metrics;
mod recorder;
mod said;
mod status;
