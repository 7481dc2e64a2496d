//! The nodes inside a node, by number.
ghost use Rattle.std.specs.Prelude.{◌≡◌, ◌<◌, true, Some, length, slice_get, IsSome, IfSome, IfNone};
ghost use Rattle.bitcode_shapes.specs.Shape.{unit_shape};
ghost use Rattle.bitcode_enums.specs.ByNumber.{shape_at};
ghost use Rattle.bitcode_schema.specs.Depth.{depth, has_few_variants};
ghost use Rattle.bitcode_schema.specs.Forms.{content_under, shape_of, shapes_of};
ghost use Rattle.bitcode_schema.specs.Making.{payload_unit, variant_contents};
ghost use Rattle.bitcode_schema.specs.Reading.{fields_of, variant_shapes};

use crate::schema::SchemaNode;

impl SchemaNode {
    /// The number of fields of a tuple or struct.
    pub(crate) fn field_count(&self) -> usize
        ensures { result ≡ length (fields_of self.now) }
    {
        match self {
            SchemaNode::Tuple(fields) => fields.len(),
            SchemaNode::Struct(fields) => fields.len(),
            _ => 0,
        }
    }

    /// The node of a field of a tuple or struct.
    pub(crate) fn field(&self, i: usize) -> Option<&SchemaNode>
        ensures found { IfSome result (λ node. slice_get (fields_of self.now) i ≡ Some node.now) }
        ensures there { i < length (fields_of self.now) → IsSome result }
        ensures deeper { IfSome result (λ node. depth node.now < depth self.now) }
        ensures few { has_few_variants self.now ≡ true
            → IfSome result (λ node. has_few_variants node.now ≡ true) }
    {
        match self {
            SchemaNode::Tuple(fields) => match fields.get(i) {
                Some(field) => Some(field),
                None => None,
            },
            SchemaNode::Struct(fields) => match fields.get(i) {
                Some(field) => Some(&field.1),
                None => None,
            },
            _ => None,
        }
    }

    /// The node of the payload of a variant, unless it is the unit of `None`.
    pub(crate) fn payload(&self, i: usize) -> Option<&SchemaNode>
        requires { i < length (variant_shapes self.now) }
        ensures found { IfSome result
            (λ node. shape_at i (shapes_of (variant_shapes self.now)) ≡ shape_of node.now) }
        ensures none { IfNone result
            (shape_at i (shapes_of (variant_shapes self.now)) ≡ unit_shape) }
        ensures content { IfSome result
            (λ node. slice_get (variant_contents self.now) i ≡ Some (content_under node.now)) }
        ensures unit { IfNone result (slice_get (variant_contents self.now) i ≡ Some payload_unit) }
        ensures deeper { IfSome result (λ node. depth node.now < depth self.now) }
        ensures few { has_few_variants self.now ≡ true
            → IfSome result (λ node. has_few_variants node.now ≡ true) }
    {
        match self {
            SchemaNode::Option(some) => { if i == 1 { Some(some) } else { None } }
            SchemaNode::Result(ok, err) => { if i == 0 { Some(ok) } else { Some(err) } }
            SchemaNode::Enum(variants) => match variants.get(i) {
                Some(variant) => Some(&variant.1),
                None => None,
            },
            _ => None,
        }
    }
}
