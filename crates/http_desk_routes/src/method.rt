//! The methods that pages take.
ghost use Rattle.std.specs.Prelude.{◌≡◌, ◌≤◌, length};
ghost use Rattle.http_desk_routes.specs.claim.Methods.{is_known as is_known_method, methods_of as methods_of_page, takes as takes_method, methods_text};

use crate::route::Route;
use http::Method;

/// The methods of a page.
#[derive(Clone, Copy)]
pub enum Methods {
    /// GET and HEAD
    Look,
    /// PUT, POST and DELETE
    Make,
    /// POST
    Post,
}

impl Methods {
    /// Whether the method is one of them.
    pub fn takes(self, method: &Method) -> bool
        ensures { result ≡ takes_method self method.now }
    {
        let word = method.as_str();
        match self {
            Methods::Look => word == "GET" || word == "HEAD",
            Methods::Make => word == "PUT" || word == "POST" || word == "DELETE",
            Methods::Post => word == "POST",
        }
    }

    /// As an Allow line names them.
    pub fn text(self) -> &'static str
        ensures text { result.now ≡ methods_text self }
        ensures short { length result.now ≤ 64 }
    {
        match self {
            Methods::Look => "GET, HEAD",
            Methods::Make => "PUT, POST, DELETE",
            Methods::Post => "POST",
        }
    }
}

/// The methods of a page.
pub fn methods_of(route: Route) -> Methods
    ensures { result ≡ methods_of_page route }
{
    match route {
        Route::Blocks | Route::Plans | Route::Revision | Route::Audit => Methods::Look,
        Route::Plan => Methods::Make,
        Route::Revisions | Route::Counties => Methods::Post,
    }
}

/// Whether the method is one of the desk's.
pub fn is_known(method: &Method) -> bool
    ensures { result ≡ is_known_method method.now }
{
    let word = method.as_str();
    word == "GET" || word == "HEAD" || word == "PUT" || word == "POST" || word == "DELETE"
}
