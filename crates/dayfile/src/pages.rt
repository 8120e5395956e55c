// Where a day's text is made.
use text::page::Page;

// A page that has room for any day's text.
pub(crate) type DayPage = Page<40_000>;
