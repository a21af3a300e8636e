ghost use Rattle.std.specs.Prelude.{◌≡◌};
ghost use Rattle.std.specs.List.{list_any, position};
ghost use Rattle.cove_region.specs.GuestMaps.{covers, has_guest, holds, meets};
ghost use Rattle.cove_region.specs.Rows.{begins_at, ends_at};

/// Guest pages in a row: from the first up to the end, which is no more of them.
#[derive(Clone, Copy, Default)]
pub struct Area {
    pub first: u64,
    pub end: u64,
}

impl Area {
    /// Whether it has a guest page.
    pub fn has(&self, page: u64) -> bool
        ensures { result ≡ has_guest page self.now }
    {
        self.first <= page && page < self.end
    }

    /// Whether it has every guest page of another.
    pub fn holds(&self, pages: &Area) -> bool
        ensures { result ≡ holds pages.now self.now }
    {
        self.first <= pages.first && pages.end <= self.end
    }

    /// Whether it has a guest page of another, neither of which is empty.
    pub fn meets(&self, pages: &Area) -> bool
        ensures { result ≡ meets pages.now self.now }
    {
        self.first < pages.end && pages.first < self.end
    }
}

/// Whether one of the areas has a guest page.
pub fn any_has(areas: &[Area], page: u64) -> bool
    ensures { result ≡ covers areas.now page }
{
    areas.iter().any(|area| area.has(page))
}

/// Whether one of the areas has a guest page of another.
pub fn any_meets(areas: &[Area], pages: Area) -> bool
    ensures { result ≡ list_any (meets pages) areas.now }
{
    areas.iter().any(|area| area.meets(&pages))
}

/// Whether one of the areas has every guest page of another.
pub fn any_holds(areas: &[Area], pages: Area) -> bool
    ensures { result ≡ list_any (holds pages) areas.now }
{
    areas.iter().any(|area| area.holds(&pages))
}

/// Whether one of the areas begins at a place.
pub fn any_begins_at(areas: &[Area], place: u64) -> bool
    ensures { result ≡ list_any (begins_at place) areas.now }
{
    areas.iter().any(|area| area.first == place)
}

/// Whether one of the areas ends at a place.
pub fn any_ends_at(areas: &[Area], place: u64) -> bool
    ensures { result ≡ list_any (ends_at place) areas.now }
{
    areas.iter().any(|area| area.end == place)
}

/// The first of the areas that has every guest page of another.
pub fn first_holding(areas: &[Area], pages: Area) -> Option<usize>
    ensures { result ≡ position (holds pages) areas.now }
{
    areas.iter().position(|area| area.holds(&pages))
}

/// The first of the areas that begins at a place.
pub fn first_beginning(areas: &[Area], place: u64) -> Option<usize>
    ensures { result ≡ position (begins_at place) areas.now }
{
    areas.iter().position(|area| area.first == place)
}

/// The first of the areas that ends at a place.
pub fn first_ending(areas: &[Area], place: u64) -> Option<usize>
    ensures { result ≡ position (ends_at place) areas.now }
{
    areas.iter().position(|area| area.end == place)
}
