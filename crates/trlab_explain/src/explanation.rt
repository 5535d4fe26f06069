//! Explanations: their heads and bodies, and the two forms in which they are written.

ghost use Rattle.std.specs.Prelude.{All, IfOk};
ghost use Rattle.trlab_lines.specs.Plain.{IsPlain};
ghost use Rattle.trlab_explain.specs.Explanations.{EndsObject, BeginsWith, IsBlankHead, text_front};

use crate::object::Object;
use std::alloc::Global;
use trlab_jobs::Subject;
use trlab_lines::Page;
use trlab_messages::{Body, Draft, Result, add_body, page_of, push_text};

/// The head of an explanation: the verdict on an input and the lines that belong to it.
#[derive(Drop)]
pub struct Head {
    /// Whether the input or its program is rejected.
    pub is_rejected: bool,
    /// The line that the command prints for a rejected input or for a program; otherwise empty.
    pub answer: Page,
    /// The line at fault with its number, if there is one.
    pub quote: Page,
    /// The sentence on the budget of an accepted program; otherwise empty.
    pub budget: Page,
}

/// An explanation of an input.
pub struct Explanation {
    pub head: Head,
    pub body: Body,
}

// Not derived: a derived drop is proved again, field by field, wherever the value goes out of scope.
impl Drop for Explanation {
    fn drop(self) {
        let Explanation {
            head: _head,
            body: _body,
        } = self;
    }
}

impl Explanation {
    /// A blank explanation of an input that is read as `subject`, and not rejected so far.
    pub fn new(alloc: Global, subject: Subject) -> Explanation
        ensures { IsBlankHead result.head }
    {
        Explanation {
            head: Head {
                is_rejected: false,
                answer: Page::new(alloc),
                quote: Page::new(alloc),
                budget: Page::new(alloc),
            },
            body: Body::new(alloc, subject),
        }
    }
}

/// The text form of an explanation: first the answer and the quote of a rejected input, or the sentence on the budget
/// of an accepted program, and then the body.
pub fn text_form(alloc: Global, explanation: &Explanation) -> Result<Page>
    ensures { IfOk result (BeginsWith (text_front explanation.now.head)) }
{
    let mut text = Draft::new(alloc);
    push_text(&mut text, &explanation.body);
    let body = page_of(alloc, text.text()?)?;
    let mut page = Page::new(alloc);
    let head = &explanation.head;
    if head.is_rejected {
        page.add(&head.answer)?;
        page.add(&head.quote)?;
    } else {
        page.add(&head.budget)?;
    }
    page.add(&body)?;
    Ok(page)
}

/// The JSON form of an explanation: one object on one line.
pub fn json_form(alloc: Global, explanation: &Explanation) -> Result<Vec<u8>>
    ensures plain { IfOk result (λ text. All IsPlain text.items) }
    ensures object { IfOk result (λ text.
        EndsObject explanation.now.head.is_rejected explanation.now.head.answer text.items) }
{
    let mut out = Object::new(alloc);
    add_body(&mut out, &explanation.body);
    out.finish(explanation.head.is_rejected, &explanation.head.answer)?;
    out.into_line()
}
