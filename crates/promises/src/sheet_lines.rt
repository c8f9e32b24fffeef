// Laws only: what the lines of a monthly sheet say. The statements stand in specs/sheet_lines.
