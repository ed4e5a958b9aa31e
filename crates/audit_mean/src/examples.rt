//! Small reports, and what the definitions find in them.
ghost use Rattle.std.specs.Prelude.{◌≡◌, [], ◌++◌, codes, Ok, Err};
ghost use Rattle.audit_mean.specs.Examples.{view_change_report};
ghost use Rattle.audit_mean.specs.Finding.{audit_of, bad_line};
ghost use Rattle.audit_mean.specs.declared.law.Law.TheVariants.{Sender, Total, Same};
ghost use Rattle.audit_mean.specs.declared.law.Finding.TheVariants.{Holds, Breach};

/// Members that deliver in different orders, or leave a view with different deliveries.
pub fn find_breaches()
    ensures order { audit_of Total (codes "deliver 0 cast 0 61\ndeliver 1 cast 1 62\ndeliver 1 cast 0 61\nend 3\n") ≡
        Ok (Breach 1 2) }
    ensures later_order { audit_of Total (codes "deliver 0 cast 0 61\ndeliver 1 cast 0 61\ndeliver 0 cast 1 62\n"
        ++ codes "deliver 2 cast 0 63\ndeliver 1 cast 1 64\nend 5") ≡ Ok (Breach 1 4) }
    ensures order_of_a_peer { audit_of Sender (codes "deliver 0 cast 0 61\ndeliver 0 cast 1 62\ndeliver 1 cast 1 62\n"
        ++ codes "deliver 1 cast 0 -\nend 4") ≡ Ok (Breach 1 4) }
    ensures name_twice { audit_of Total (codes "view 0 1 3\ndeliver 0 cast 0 61\nview 0 2 3\nview 0 1 3\n"
        ++ codes "deliver 0 cast 0 62\nview 1 1 3\ndeliver 1 cast 0 61\nend 0") ≡ Ok (Breach 5 7) }
    ensures lacking { audit_of Same (codes "deliver 0 cast 0 61\nview 0 1 3\nview 1 1 3\nend 3\n") ≡ Ok (Breach 1 3) }
    ensures lacking_one_of_two { audit_of Same (codes "deliver 0 cast 0 61\ndeliver 0 cast 0 61\ndeliver 1 cast 0 61\n"
        ++ codes "view 0 1 3\nview 1 1 3\nend 0") ≡ Ok (Breach 2 5) }
    ensures line_of_the_later_first { audit_of Sender (codes "deliver 0 cast 0 61\ndeliver 0 cast 1 62\n"
        ++ codes "deliver 1 cast 1 63\ndeliver 1 cast 0 64\nend 4") ≡ Ok (Breach 2 3) }
    ensures line_of_the_end_first { audit_of Same (codes "deliver 0 cast 0 61\ndeliver 1 cast 0 62\nview 0 1 3\n"
        ++ codes "view 1 1 3\nend 4") ≡ Ok (Breach 2 3) }
    ensures lacking_what_comes_later { audit_of Same (codes "view 1 1 3\ndeliver 0 cast 0 61\nview 0 1 3\nend 3\n"
        ++ codes "visits 0") ≡ Ok (Breach 2 1) }
{}

/// Members that keep a law though they differ: in the order of two peers, in other views, in sends, and
/// after the line by which one is out.
pub fn keep_laws()
    ensures order_of_two_peers { audit_of Sender (codes "deliver 0 cast 0 61\ndeliver 1 cast 1 62\n"
        ++ codes "deliver 1 cast 0 61\nend 3\n") ≡ Ok Holds }
    ensures same_so_far { audit_of Same
        (codes "deliver 0 cast 0 61\ndeliver 1 cast 1 62\ndeliver 1 cast 0 61\nend 3\n") ≡
        Ok Holds }
    ensures lists_in_order { audit_of Total (codes "deliver 0 cast 0 61\nview 0 1 3\nview 1 1 3\nend 3\n") ≡ Ok Holds }
    ensures other_views_total { audit_of Total (codes "view 0 1 3\nview 1 2 3\ndeliver 0 cast 0 61\n"
        ++ codes "deliver 1 cast 0 62\nview 0 3 3\nview 1 3 3\nend 4") ≡ Ok Holds }
    ensures other_views_same { audit_of Same (codes "view 0 1 3\nview 1 2 3\ndeliver 0 cast 0 61\ndeliver 1 cast 0 62\n"
        ++ codes "view 0 3 3\nview 1 3 3\nend 4") ≡ Ok Holds }
    ensures itself { audit_of Same (codes "view 0 1 3\ndeliver 0 cast 0 61\nview 0 2 3\nview 0 1 3\n"
        ++ codes "deliver 0 cast 0 62\nview 1 1 3\ndeliver 1 cast 0 61\nend 0") ≡ Ok Holds }
    ensures out_total { audit_of Total (codes "out 0\ndeliver 0 cast 0 61\nview 0 1 3\ndeliver 1 cast 0 62\n"
        ++ codes "view 1 1 3\nend 0") ≡ Ok Holds }
    ensures out_same { audit_of Same (codes "out 0\ndeliver 0 cast 0 61\nview 0 1 3\ndeliver 1 cast 0 62\nview 1 1 3\n"
        ++ codes "end 0") ≡ Ok Holds }
    ensures sends { audit_of Total (codes "deliver 0 send 0 61\ndeliver 0 cast 0 62\ndeliver 1 cast 0 62\n"
        ++ codes "deliver 1 send 0 63\nend 0") ≡ Ok Holds }
{}

/// The report of a run in which one of three members falls silent, and two go into a view without it.
pub fn keep_laws_in_a_view_change()
    ensures sender { audit_of Sender view_change_report ≡ Ok Holds }
    ensures total { audit_of Total view_change_report ≡ Ok Holds }
    ensures same { audit_of Same view_change_report ≡ Ok Holds }
{}

/// Texts that are no reports, and their first lines out of form.
pub fn find_faults()
    ensures no_end { audit_of Total (codes "deliver 0 cast 0 61\ndeliver 1 cast 1 62\ndeliver 1 cast 0 61\n") ≡
        Err (bad_line 4) }
    ensures empty { audit_of Same [] ≡ Err (bad_line 1) }
    ensures no_bytes_in_a_line { audit_of Same (codes "\nend 0\n") ≡ Err (bad_line 1) }
    ensures comment { audit_of Same (codes "# said\nend 0\n") ≡ Err (bad_line 1) }
    ensures after_the_end { audit_of Same (codes "end 0\n\n") ≡ Err (bad_line 2) }
    ensures end_twice { audit_of Total (codes "end 0\nend 0\n") ≡ Err (bad_line 2) }
    ensures visits_first { audit_of Total (codes "visits 1\nend 0\n") ≡ Err (bad_line 1) }
    ensures after_visits { audit_of Total (codes "out 1\nend 0\nvisits 1\nvisits 1\n") ≡ Err (bad_line 4) }
    ensures member_of_no_group { audit_of Sender (codes "out 31\nout 32\nend 0\n") ≡ Err (bad_line 2) }
    ensures leading_zero { audit_of Sender (codes "view 0 01 3\nend 0\n") ≡ Err (bad_line 1) }
    ensures too_long_a_count { audit_of Sender (codes "end 18446744073709551616\n") ≡ Err (bad_line 1) }
    ensures too_long_a_peer { audit_of Sender (codes "timer\ndeliver 0 send 4294967296 61\nend 1") ≡ Err (bad_line 2) }
    ensures upper_case { audit_of Sender (codes "deliver 0 cast 4294967295 6A\nend 1") ≡ Err (bad_line 1) }
    ensures odd_digits { audit_of Sender (codes "deliver 0 cast 0 -\ndeliver 0 send 0 616\nend 1") ≡ Err (bad_line 2) }
    ensures unknown { audit_of Sender (codes "delivers 0 cast 0 -\nend 1") ≡ Err (bad_line 1) }
    ensures two_spaces { audit_of Sender (codes "out  0\nend 1") ≡ Err (bad_line 1) }
    ensures first_of_two { audit_of Total (codes "state\n> \nout\nend\n") ≡ Err (bad_line 3) }
{}

/// The last line feed may be missing, and counts may be of 64 bits.
pub fn read_ends()
    ensures open { audit_of Same (codes "end 18446744073709551615\nvisits 18446744073709551615") ≡ Ok Holds }
    ensures ended { audit_of Same (codes "end 0\nvisits 0\n") ≡ Ok Holds }
{}
