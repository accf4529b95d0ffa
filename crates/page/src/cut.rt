// How a job is cut into pages.
ghost use Rattle.std.specs.Prelude.{◌≡◌, ◌+◌, ◌-◌, ◌*◌, ◌<◌, ◌≤◌, MatchResult};
ghost use Rattle.page.specs.Pages.{page_count, page_start, own_length};

use crate::count::accept_pages;
use field::Field;
use refusal::{Limit, Refusal};

/// The longest page, in bytes.
pub const PAGE_LENGTH_LIMIT: usize = 4096;

/// The cut of a job of so many bytes into pages, counted from 1: each has `page_length` bytes, but the
/// last, which may have fewer. Whoever holds pages, to read or to replace, takes their number, places and
/// lengths from here (docs/RULES.md, "Pages and signatures").
#[derive(Clone, Copy, PartialEq, Eq, Debug)]
pub struct Cut {
    bytes: usize,
    page_length: usize,
    pages: usize,
    ghost filled: { 1 ≤ page_length },
    ghost counted: { pages ≡ page_count page_length bytes },
}

impl Cut {
    ghost use Rattle.refusal.specs.Rules.{Within, Accepted, Refused};
    ghost use Rattle.page.specs.Pages.{cutting};

    /// The cut of a job of so many bytes. Refused: a page length outside 1 to 4,096 (1, place 7), then
    /// fewer than 1 or too many pages for the field (1, place 3).
    pub fn new<F: Field>(bytes: usize, page_length: usize) -> Result<Cut, Refusal>
        ensures { MatchResult result
            (λ cut. Accepted (cutting F.Field.ops page_length bytes)
            × (cut.bytes ≡ bytes) × (cut.page_length ≡ page_length))
            (Refused (cutting F.Field.ops page_length bytes)) }
    {
        if page_length < 1 || page_length > PAGE_LENGTH_LIMIT {
            return Err(Refusal::Size(Limit::PageLength));
        }
        let pages = bytes.div_ceil(page_length);
        accept_pages::<F>(pages)?;
        Ok(Cut {
            bytes,
            page_length,
            pages,
        })
    }

    /// How many bytes each page has but the last; signing fills the last up to it.
    pub fn page_length(&self) -> usize
        ensures { result ≡ self.now.page_length }
    {
        self.page_length
    }

    /// How many pages there are, from 1 to the field's limit.
    pub fn pages(&self) -> usize
        ensures held { result ≡ self.now.pages }
        ensures counted { result ≡ page_count self.now.page_length self.now.bytes }
    {
        self.pages
    }

    /// How many of the job's bytes come before a page: where it begins, from 0.
    pub fn start_of(&self, page: usize) -> usize
        ensures { result ≡ page_start self.now.page_length self.now.bytes page }
    {
        start_of_page(self.bytes, self.page_length, page)
    }

    /// How many bytes of its own a page has: the page length, but for the last page what is left, and none
    /// for a page that the job does not have.
    pub fn length_of(&self, page: usize) -> usize
        ensures is { result ≡ own_length self.now.page_length self.now.bytes page }
        ensures whole { 1 ≤ page → page < self.now.pages → result ≡ self.now.page_length }
        ensures last { 1 ≤ page → page ≡ self.now.pages
            → Within 1 self.now.page_length result
            × ((page - 1) * self.now.page_length + result ≡ self.now.bytes) }
    {
        length_of_page(self.bytes, self.page_length, page)
    }
}

// Where a page begins, of a job of so many bytes cut into pages of this length.
pub(crate) fn start_of_page(bytes: usize, length: usize, page: usize) -> usize
    ensures { result ≡ page_start length bytes page }
{
    page.saturating_sub(1).saturating_mul(length).min(bytes)
}

// How many bytes of its own it has.
pub(crate) fn length_of_page(bytes: usize, length: usize, page: usize) -> usize
    ensures { result ≡ own_length length bytes page }
{
    if page == 0 {
        return 0;
    }
    (bytes - start_of_page(bytes, length, page)).min(length)
}
