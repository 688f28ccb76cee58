ghost use Rattle.std.specs.Prelude.{◌≡◌, IfOk};

use crate::boxed::Boxed;
use crate::definition::{Def, Field, Variant};
use crate::ground::Ground;
use crate::list::List;
use crate::memory::Memory;
use std::alloc::Global;

impl Ground {
    /// An equal type.
    #[cycle(copy)]
    pub fn copy(&self, alloc: Global) -> Result<Ground, Memory>
        ensures { IfOk result (λ copy. copy ≡ self.now) }
    {
        match self {
            Ground::Prim(primitive) => Ok(Ground::Prim(*primitive)),
            Ground::Never => Ok(Ground::Never),
            Ground::Unit => Ok(Ground::Unit),
            Ground::Tuple(elements) => Ok(Ground::Tuple(copy_all(alloc, elements.as_slice())?)),
            Ground::Array(element, length) => {
                let element = Boxed::new(alloc, element.get().copy(alloc)?)?;
                Ok(Ground::Array(element, *length))
            }
            Ground::Named(id) => Ok(Ground::Named(*id)),
            Ground::NonZero(primitive) => Ok(Ground::NonZero(*primitive)),
            Ground::Wrap(wrapper, argument) => {
                let argument = Boxed::new(alloc, argument.get().copy(alloc)?)?;
                Ok(Ground::Wrap(*wrapper, argument))
            }
            Ground::Ref(id) => Ok(Ground::Ref(*id)),
        }
    }
}

/// Equal types, in order.
#[cycle(copy)]
fn copy_all(alloc: Global, types: &[Ground]) -> Result<List<Ground>, Memory>
    ensures { IfOk result (λ copies. copies ≡ types.now) }
{
    let mut copies = List::new(alloc);
    for item in types {
        copies.add(item.copy(alloc)?)?;
    }
    Ok(copies)
}

impl Field {
    /// An equal field.
    fn copy(&self, alloc: Global) -> Result<Field, Memory>
        ensures { IfOk result (λ field. field ≡ self.now) }
    {
        let name = self.name.copy(alloc)?;
        Ok(Field {
            name,
            public: self.public,
        })
    }
}

impl Variant {
    /// An equal variant.
    fn copy(&self, alloc: Global) -> Result<Variant, Memory>
        ensures { IfOk result (λ variant. variant ≡ self.now) }
    {
        let name = self.name.copy(alloc)?;
        let mut fields = List::new(alloc);
        for field in self.fields.as_slice() {
            fields.add(field.copy(alloc)?)?;
        }
        Ok(Variant {
            name,
            value: self.value,
            fields,
        })
    }
}

impl Def {
    /// An equal definition.
    pub fn copy(&self, alloc: Global) -> Result<Def, Memory>
        ensures { IfOk result (λ def. def ≡ self.now) }
    {
        let name = self.name.copy(alloc)?;
        let mut variants = List::new(alloc);
        for variant in self.variants.as_slice() {
            variants.add(variant.copy(alloc)?)?;
        }
        Ok(Def {
            name,
            kind: self.kind,
            repr: self.repr,
            variants,
        })
    }
}
