//! Tags: number, class and form (clause 20.2.1).
ghost use Rattle.std.specs.Prelude.{◌≡◌, ◌↔◌, IsTrue, IsSome, IfSome, true};
ghost use Rattle.bac_value.specs.Limits.{tag_fits};

use crate::kinds;

/// The class of a tag (clause 20.2.1.1).
#[derive(Clone, Copy, Debug, PartialEq, Eq)]
pub enum Class {
    /// The tag number is a kind of application value.
    Application,
    /// The tag number identifies a member of a service or a construct.
    Context,
}

/// The rest of a tag beside its number and class (clause 20.2.1.3).
#[derive(Clone, Copy, Debug, PartialEq, Eq)]
pub enum Form {
    /// Contents of this many octets follow.
    Length(u32),
    /// The value of an application Boolean, which has empty contents.
    Boolean(bool),
    /// An opening tag: it opens a pair of context tags around elements.
    Opening,
    /// A closing tag: it closes the pair.
    Closing,
}

/// A tag that can be encoded: application tags have numbers 0 to 12, where 1 is the Boolean; context tags 0 to 254.
#[derive(Clone, Copy, Debug, PartialEq, Eq)]
pub struct Tag {
    /// The tag number: for an application tag the kind of value, 0 to 12; for a context tag 0 to 254.
    pub number: u8,
    /// Whether the number is a kind of value, or identifies a member of a service.
    pub class: Class,
    /// The length of the contents, or a form without contents.
    pub form: Form,
    pub ghost fits: { IsTrue (tag_fits number class form) },
}

impl Tag {
    /// A tag; None exactly if such a tag cannot be encoded.
    pub fn new(number: u8, class: Class, form: Form) -> Option<Tag>
        ensures some { IsSome result ↔ IsTrue (tag_fits number class form) }
        ensures same { IfSome result (λ t. (t.number ≡ number) × (t.class ≡ class) × (t.form ≡ form)) }
    {
        let fits = match (class, form) {
            (Class::Application, Form::Length(_)) => number < 13 && number != kinds::BOOLEAN,
            (Class::Application, Form::Boolean(_)) => number == kinds::BOOLEAN,
            (Class::Application, _) => false,
            (Class::Context, Form::Boolean(_)) => false,
            (Class::Context, _) => number < 255,
        };
        if fits {
            Some(Tag {
                number,
                class,
                form,
            })
        } else {
            None
        }
    }
}
