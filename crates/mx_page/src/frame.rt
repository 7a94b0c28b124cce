// The page's frame, written by page/write_frame.py.
mod end_01;
mod end_02;
mod head_01;

/// The page's frame up to the place of the data, in pieces that follow one another. Which text it is page/write_frame.py sees to.
pub fn page_head() -> [&'static str; 1] {
    [head_01::text()]
}

/// The page's frame behind the data, in pieces that follow one another. Which text it is page/write_frame.py sees to.
pub fn page_end() -> [&'static str; 2] {
    [end_01::text(), end_02::text()]
}
