//! The categories of an election's projects.

ghost use Rattle.std.specs.Prelude.{◌≡◌};
ghost use Rattle.pb_page.specs.Page.{category_name, category_of};

/// The categories of an election's projects.
#[derive(Clone, Copy)]
pub struct Categories<'a> {
    /// The texts of the categories; the empty text is that of projects whose category is empty.
    pub names: &'a [&'a str],
    /// For each project, in file order, which of these texts is its category, from 0. A project with no such
    /// text is in none.
    pub of_project: &'a [u32],
}

impl<'a> Categories<'a> {
    /// The text of the category with this number; where there is none, nothing.
    pub(crate) fn name(&self, number: usize) -> &'a str
        ensures { result.now ≡ category_name self.now number }
    {
        if number < self.names.len() {
            self.names[number]
        } else {
            ""
        }
    }

    /// The number of the category of the project at this place; as many as there are categories where it has
    /// none.
    pub(crate) fn of(&self, place: u32) -> usize
        ensures { result ≡ category_of self.now place }
    {
        match self.of_project.get(place as usize) {
            Some(number) => *number as usize,
            None => self.names.len(),
        }
    }
}
