//! The answers to web connections.

use crate::last_books::last_books;
use crate::status::{Form, Parts};
use share_web::{PAGE, Refusal, Request, Resource, Want, answer_text, refusal_text};
use std::alloc::AllocError;
use std::fs::{File, Files};

impl Parts<'_> {
    /// The answer to the request of a web connection.
    pub fn answer_to<R: Files<File = File>>(
        &self,
        rt: &R,
        request: Request,
    ) -> Result<Vec<u8>, AllocError> {
        match request.want {
            Want::Refusal(why) => refusal_text(self.alloc, why, request.has_body),
            Want::Resource(resource) => self.resource(rt, resource, request.has_body),
        }
    }

    fn resource<R: Files<File = File>>(
        &self,
        rt: &R,
        resource: Resource,
        has_body: bool,
    ) -> Result<Vec<u8>, AllocError> {
        match resource {
            Resource::Page => answer_text(self.alloc, resource, PAGE, has_body),
            Resource::Status => self.status_answer(resource, Form::Line, has_body),
            Resource::Metrics(form) => self.status_answer(resource, Form::Metrics(form), has_body),
            Resource::Books => self.books_answer(rt, has_body),
        }
    }

    // The status in a form. It is not available while no book is open.
    fn status_answer(
        &self,
        resource: Resource,
        form: Form,
        has_body: bool,
    ) -> Result<Vec<u8>, AllocError> {
        let body = self.status_in(form)?;
        if body.is_empty() {
            return refusal_text(self.alloc, Refusal::Unavailable, has_body);
        }
        answer_text(self.alloc, resource, body.as_slice(), has_body)
    }

    // The rows of the last books. They are not available if the file cannot be read.
    fn books_answer<R: Files<File = File>>(
        &self,
        rt: &R,
        has_body: bool,
    ) -> Result<Vec<u8>, AllocError> {
        let settings = self.settings;
        match last_books(rt, self.alloc, settings.books.folder.as_str()) {
            Ok(body) => answer_text(self.alloc, Resource::Books, body.as_slice(), has_body),
            Err(_) => refusal_text(self.alloc, Refusal::Unavailable, has_body),
        }
    }
}
