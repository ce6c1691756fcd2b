//! The eight levels of the tree, from below, with the walks over them and the paths into them. Each level
//! has types of its own, so the depth of the tree stands here, and nowhere else.

use crate::entries::{LeafWalk, NodeWalk};
use crate::find::NodeFinger;
use crate::level::{Leaf, Node};

/// The root places a key by its four highest bits.
pub(crate) const ROOT_SHIFT: u32 = 28;

// The nodes above the leaves.
pub(crate) type Node1<V> = Node<Leaf<V>>;

type Node2<V> = Node<Node1<V>>;

type Node3<V> = Node<Node2<V>>;

type Node4<V> = Node<Node3<V>>;

type Node5<V> = Node<Node4<V>>;

type Node6<V> = Node<Node5<V>>;

pub(crate) type Root<V> = Node<Node6<V>>;

// The walks over them.
type Walk1<'a, V> = NodeWalk<'a, Leaf<V>, LeafWalk<'a, V>>;

type Walk2<'a, V> = NodeWalk<'a, Node1<V>, Walk1<'a, V>>;

type Walk3<'a, V> = NodeWalk<'a, Node2<V>, Walk2<'a, V>>;

type Walk4<'a, V> = NodeWalk<'a, Node3<V>, Walk3<'a, V>>;

type Walk5<'a, V> = NodeWalk<'a, Node4<V>, Walk4<'a, V>>;

type Walk6<'a, V> = NodeWalk<'a, Node5<V>, Walk5<'a, V>>;

pub(crate) type RootWalk<'a, V> = NodeWalk<'a, Node6<V>, Walk6<'a, V>>;

// The paths into them. A path ends above the leaves, one of which is kept beside it.
type Finger2<'a, V> = NodeFinger<'a, Node1<V>, &'a Node1<V>>;

type Finger3<'a, V> = NodeFinger<'a, Node2<V>, Finger2<'a, V>>;

type Finger4<'a, V> = NodeFinger<'a, Node3<V>, Finger3<'a, V>>;

type Finger5<'a, V> = NodeFinger<'a, Node4<V>, Finger4<'a, V>>;

type Finger6<'a, V> = NodeFinger<'a, Node5<V>, Finger5<'a, V>>;

pub(crate) type RootFinger<'a, V> = NodeFinger<'a, Node6<V>, Finger6<'a, V>>;
