// What has passed before a day: whole years or months, and days of the one that it falls into.
#[derive(Clone, Copy)]
pub(crate) struct Passed {
    pub whole: u32,
    pub days: u32,
}
