//! The statuses that a reply can have.
ghost use Rattle.std.specs.Prelude.{◌≡◌};
ghost use Rattle.pl_head.specs.Reply.{allow_line, code_of, reason_of};

use http::StatusCode;

/// The methods that a route can have.
#[derive(Clone, Copy, Debug, PartialEq, Eq)]
pub enum Method {
    Get,
    Put,
}

/// What became of a request, in the words of RFC 9110.
#[derive(Clone, Copy, Debug, PartialEq, Eq)]
pub enum Status {
    Success,
    Created,
    BadRequest,
    NotFound,
    /// The route has this method alone, which the reply names.
    MethodNotAllowed(Method),
    Conflict,
    LengthRequired,
    PayloadTooLarge,
    UnprocessableEntity,
    InternalServerError,
    ServiceUnavailable,
}

impl Status {
    /// Its number, 200 to 503.
    pub fn code(self) -> u16
        ensures { result ≡ code_of self }
    {
        match self {
            Status::Success => 200,
            Status::Created => 201,
            Status::BadRequest => 400,
            Status::NotFound => 404,
            Status::MethodNotAllowed(_) => 405,
            Status::Conflict => 409,
            Status::LengthRequired => 411,
            Status::PayloadTooLarge => 413,
            Status::UnprocessableEntity => 422,
            Status::InternalServerError => 500,
            Status::ServiceUnavailable => 503,
        }
    }

    /// The canonical phrase of its number.
    #[tactic(auto, unfolding(crate::specs::Reply::reason_of))]
    pub fn reason(self) -> &'static str
        ensures { result.now ≡ reason_of self }
    {
        match StatusCode::from_u16(self.code()) {
            Ok(code) => code.canonical_reason().unwrap_or(""),
            Err(_) => "",
        }
    }

    /// The line that names the one method of the route, or nothing.
    pub(crate) fn allow_line(self) -> &'static str
        ensures { result.now ≡ allow_line self }
    {
        match self {
            Status::MethodNotAllowed(Method::Get) => "Allow: GET\r\n",
            Status::MethodNotAllowed(Method::Put) => "Allow: PUT\r\n",
            _ => "",
        }
    }
}
