// The files of the runs.

pub(crate) const LAMP: &[u8] =
    b"(define (domain lamp) (:predicates (on) (broken)) (:action flip :parameters () :precondition (not (on)) :effect (on)))";

pub(crate) const DARK: &[u8] = b"(define (problem p) (:domain lamp) (:init) (:goal (on)))";

pub(crate) const BLOCKS: &[u8] = b"; The usual blocks.
(DEFINE (DOMAIN BLOCKS)
(:PREDICATES (ON ?X ?Y) (ONTABLE ?X) (CLEAR ?X) (HANDEMPTY) (HOLDING ?X))
(:ACTION PICK-UP :PARAMETERS (?X)
:PRECONDITION (AND (CLEAR ?X) (ONTABLE ?X) (HANDEMPTY)) ; from the table
:EFFECT (AND (NOT (ONTABLE ?X)) (NOT (CLEAR ?X)) (NOT (HANDEMPTY)) (HOLDING ?X)))
(:ACTION PUT-DOWN :PARAMETERS (?X)
:PRECONDITION (HOLDING ?X)
:EFFECT (AND (NOT (HOLDING ?X)) (CLEAR ?X) (HANDEMPTY) (ONTABLE ?X)))
(:ACTION STACK :PARAMETERS (?X ?Y)
:PRECONDITION (AND (HOLDING ?X) (CLEAR ?Y))
:EFFECT (AND (NOT (HOLDING ?X)) (NOT (CLEAR ?Y)) (CLEAR ?X) (HANDEMPTY) (ON ?X ?Y)))
(:ACTION UNSTACK :PARAMETERS (?X ?Y)
:PRECONDITION (AND (ON ?X ?Y) (CLEAR ?X) (HANDEMPTY))
:EFFECT (AND (HOLDING ?X) (CLEAR ?Y) (NOT (CLEAR ?X)) (NOT (HANDEMPTY)) (NOT (ON ?X ?Y)))))";

pub(crate) const TOWER: &[u8] = b"(DEFINE (PROBLEM TOWER) (:DOMAIN BLOCKS) (:OBJECTS A B C D)
(:INIT (ONTABLE A) (ONTABLE B) (ONTABLE C) (ONTABLE D) (CLEAR A) (CLEAR B) (CLEAR C) (CLEAR D) (HANDEMPTY))
(:GOAL (AND (ON D C) (ON C B) (ON B A))))";

// What `plan` prints of the tower.
pub(crate) const TOWER_PLAN: &str = "; horizon 0 refuted conflicts 1
; horizon 1 refuted conflicts 1
; horizon 2 refuted conflicts 1
; horizon 3 refuted conflicts 1
; horizon 4 refuted conflicts 1
; horizon 5 refuted conflicts 2
; horizon 6 plan conflicts 0
; horizon 7 plan conflicts 0
; conflicts 7 of 100000
; plan of 6 steps with 6 actions
; step 1
(pick-up b)
; step 2
(stack b a)
; step 3
(pick-up c)
; step 4
(stack c b)
; step 5
(pick-up d)
; step 6
(stack d c)
";

// What `plan` prints of the lamp.
pub(crate) const LAMP_PLAN: &str = "; horizon 0 refuted conflicts 1
; horizon 1 plan conflicts 0
; horizon 2 plan conflicts 0
; horizon 3 plan conflicts 0
; conflicts 1 of 100000
; plan of 1 steps with 1 actions
; step 1
(flip)
";
