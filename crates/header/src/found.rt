// What is found of a header.

ghost use Rattle.header.specs.Within.{Within};

// A good header: the columns of the four names, counted from 1; how many columns there are; and the bytes after the header.
#[derive(Clone, Copy)]
pub struct Header<'a> {
    pub columns: [usize; 4],
    pub count: usize,
    pub rest: &'a [u8],
    pub ghost within: { Within columns count },
}
