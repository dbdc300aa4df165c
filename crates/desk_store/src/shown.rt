//! What a clerk shows after a load.
ghost use Rattle.std.specs.Prelude.{◌≡◌, IfOk};
ghost use Rattle.desk_store.specs.Keeping.{sealed_desk};

use desk_model::geography::Geography;
use desk_store_catalogue::catalogue::Catalogue;
use std::alloc::{AllocError, Global};
use std::sync::Arc;

/// The desk with a geography and no plan, to be shown. Err where memory for it is refused.
pub(crate) fn sealed(
    alloc: Global,
    geography: &Arc<Geography>,
) -> Result<Arc<Catalogue>, AllocError>
    ensures { IfOk result (λ shown. shown.value ≡ sealed_desk geography.now.value) }
{
    let owner = geography.clone()?;
    Ok(Arc::new(alloc, Catalogue::new(Some(owner)))?)
}
