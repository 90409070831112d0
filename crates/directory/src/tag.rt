// How a line is looked at, in the code: as it stands, as signed code, or as sealed data.
ghost use Rattle.std.specs.Prelude.{◌≡◌, ◌≤◌};
ghost use Rattle.model.specs.Tags.{tag_number, is_data, is_checked};
ghost use Rattle.directory.specs.TagIn.{tag_in};

// The tags of a line.
#[derive(Clone, Copy, Debug, PartialEq, Eq)]
pub enum Tag {
    Ordinary,
    SecureInstruction,
    SecureData,
}

impl Tag {
    // The tag's number in the directory and in a listing.
    #[tactic(auto, unfolding(model::specs::Tags::tag_number))]
    pub fn number(self) -> u32
        ensures { (result ≡ tag_number (tag_in self)) × (result ≤ 2) }
    {
        match self {
            Tag::Ordinary => 0,
            Tag::SecureInstruction => 1,
            Tag::SecureData => 2,
        }
    }

    // Is this the tag of a sealed line?
    #[tactic(auto, unfolding(model::specs::Tags::is_data))]
    pub fn is_data(self) -> bool
        ensures { result ≡ is_data (tag_in self) }
    {
        matches!(self, Tag::SecureData)
    }

    // Is a line of this tag checked when it is filled?
    #[tactic(auto, unfolding(model::specs::Tags::is_checked))]
    pub fn is_checked(self) -> bool
        ensures { result ≡ is_checked (tag_in self) }
    {
        !matches!(self, Tag::Ordinary)
    }
}
